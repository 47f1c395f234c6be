// Which buffer each holder has: 2N that Bank and X keep, N that the processes own.
ghost use Rattle.std.specs.Prelude.{◌≡◌, ◌+◌, ◌*◌, ◌<◌, ◌≤◌, ◌&&◌, eqb, length};
ghost use Rattle.model.specs.Sizes.{sequence_numbers};
ghost use Rattle.held_model.specs.Layout.{words_place};
ghost use Rattle.held_rows.specs.Reads.{seen_from};
ghost use Rattle.held_buffers.specs.HoldersRead.{asking_at, kept_from, owned_from, held_from};

use held_rows::{layout, ranges};
use llsc::ProcessNumber;
use llsc::counts::Processes;
use model::{SequenceNumber, sizes};
use station::RecordNumber;

// Kept at i: Bank[i], but at X's sequence number X's own buffer.
fn kept(held: &[u64], j: RecordNumber, i: SequenceNumber) -> u64
    requires { (i.0 < 32) × (words_place (j.0 + 1) ≤ length held.now) }
    ensures { result ≡ kept_from held.now j.0 i.0 }
{
    let x = layout::record_place(j);
    if i.0 as u64 == held[x + 1] {
        held[x]
    } else {
        held[layout::bank_place(j, i)]
    }
}

// Whether process p has done line 1 but not line 10 of an LL on record j.
fn is_asking(held: &[u64], j: RecordNumber, p: ProcessNumber) -> bool
    requires { (p.0 < 16) × (words_place (j.0 + 1) ≤ length held.now) }
    ensures { result ≡ asking_at (seen_from held.now j.0 p.0).line }
{
    let line = if ranges::is_away(held, j, p) {
        0
    } else {
        held[layout::call_place(p)]
    };
    matches!(line, 2..=10 | 24)
}

// Owned by p: the buffer in Help[p] while it asks and the flag is 0, else mybuf.
fn owned(held: &[u64], j: RecordNumber, p: ProcessNumber) -> u64
    requires { (p.0 < 16) × (words_place (j.0 + 1) ≤ length held.now) }
    ensures { result ≡ owned_from held.now j.0 p.0 }
{
    let help = layout::help_place(j, p);
    if is_asking(held, j, p) && held[help] == 0 {
        held[help + 1]
    } else {
        held[layout::holding_place(j, p)]
    }
}

// The buffer of holder k.
pub fn buffer_held(held: &[u64], count: Processes, j: RecordNumber, k: usize) -> u64
    requires { (k < 3 * count.n) × (words_place (j.0 + 1) ≤ length held.now) }
    ensures { result ≡ held_from held.now count.n j.0 k }
{
    let places = sizes::sequence_numbers(count);
    if k < places {
        kept(held, j, SequenceNumber(k as u8))
    } else {
        owned(held, j, ProcessNumber((k - places) as u8))
    }
}
