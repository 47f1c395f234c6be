// Row 9 of the refusal table over the numbers of a held list: a number that is too large for its field is out of its
// range like any other.
ghost use Rattle.std.specs.Prelude.{◌≡◌, ◌+◌, ◌≤◌, ◌<◌, ◌^◌, ltb, leb, cond, eqb, length};
ghost use Rattle.model.specs.Sizes.{buffers, sequence_numbers, busy_most};
ghost use Rattle.model.specs.Refusals.{x_place_ok, bank_place_ok, help_place_ok, process_ok};
ghost use Rattle.held_model.specs.Layout.{words_place};
ghost use Rattle.held_model.specs.Memory.{number_at, x_from, bank_from, help_from};
ghost use Rattle.held_rows.specs.Reads.{line_number_ok, away, seen_from};
ghost use Rattle.held_rows.specs.WholeRows.{holding_from_ok, call_from_ok};

use crate::layout;
use llsc::ProcessNumber;
use llsc::counts::{Processes, Width};
use model::sizes;
use station::RecordNumber;

// A buffer number is below 3N.
pub fn buffer_ok(count: Processes, buf: u64) -> bool
    ensures { result ≡ ltb buf (buffers count.n) }
{
    buf < sizes::buffers(count) as u64
}

// A sequence number is below 2N.
pub fn sequence_ok(count: Processes, seq: u64) -> bool
    ensures { result ≡ ltb seq (sequence_numbers count.n) }
{
    seq < sizes::sequence_numbers(count) as u64
}

// No process from N on has a link.
pub fn links_ok(count: Processes, links: u64) -> bool
    ensures { result ≡ ltb links (2 ^ count.n) }
{
    links < (1u64 << count.n)
}

// X, whose numbers begin at k.
#[inline(always)]
pub fn x_ok(count: Processes, held: &[u64], k: usize) -> bool
    requires { k + 3 ≤ length held.now }
    ensures { result ≡ x_place_ok count.n (x_from held.now k) }
{
    buffer_ok(count, held[k]) && sequence_ok(count, held[k + 1]) && links_ok(count, held[k + 2])
}

// A place of Bank.
#[inline(always)]
pub fn bank_ok(count: Processes, held: &[u64], k: usize) -> bool
    requires { k + 2 ≤ length held.now }
    ensures { result ≡ bank_place_ok count.n (bank_from held.now k) }
{
    buffer_ok(count, held[k]) && links_ok(count, held[k + 1])
}

// A place of Help: its flag is 0 or 1.
#[inline(always)]
pub fn help_ok(count: Processes, held: &[u64], k: usize) -> bool
    requires { k + 3 ≤ length held.now }
    ensures { result ≡ help_place_ok count.n (help_from held.now k) }
{
    held[k] <= 1 && buffer_ok(count, held[k + 1]) && links_ok(count, held[k + 2])
}

// Idle, or a point of Figure 2: 16, and 20 to 22, are none.
fn line_ok(line: u64) -> bool
    ensures { result ≡ line_number_ok line }
{
    matches!(line, 0..=15 | 17..=19 | 23..=26)
}

// An idle process has count 0, a busy one at most 8W+6.
fn count_ok(width: Width, line: u64, count: u64) -> bool
    ensures { result ≡ leb count (cond (eqb line 0) 0 (busy_most width.w)) }
{
    let most = if line == 0 {
        0
    } else {
        sizes::busy_most(width)
    };
    count <= most as u64
}

// What a process holds of a record, whose numbers begin at k.
#[inline(always)]
pub fn holding_ok(count: Processes, held: &[u64], k: usize) -> bool
    requires { k + 3 ≤ length held.now }
    ensures { result ≡ holding_from_ok held.now count.n k }
{
    buffer_ok(count, held[k]) && buffer_ok(count, held[k + 1]) && sequence_ok(count, held[k + 2])
}

// The open call of a process, whose numbers begin at k, as the process itself has it.
pub fn call_ok(count: Processes, width: Width, r: usize, held: &[u64], k: usize) -> bool
    requires { k + 8 ≤ length held.now }
    ensures { result ≡ call_from_ok held.now count.n width.w r k }
{
    let line = held[k];
    let records = if line == 0 { 1 } else { r };
    held[k + 3] < records as u64
        && buffer_ok(count, held[k + 4])
        && buffer_ok(count, held[k + 5])
        && buffer_ok(count, held[k + 6])
        && buffer_ok(count, held[k + 7])
        && line_ok(line)
        && held[k + 1] < sizes::halves(width) as u64
        && count_ok(width, line, held[k + 2])
}

// Whether the open call of process p is on another record than j.
#[inline(always)]
pub fn is_away(held: &[u64], j: RecordNumber, p: ProcessNumber) -> bool
    requires { (p.0 < 16) × (131 ≤ length held.now) }
    ensures { result ≡ away held.now j.0 p.0 }
{
    let call = layout::call_place(p);
    held[call] != 0 && held[call + 3] != j.0 as u64
}

// Process p as record j's bench has it.
#[inline(always)]
pub fn process_ok(
    count: Processes,
    width: Width,
    held: &[u64],
    j: RecordNumber,
    p: ProcessNumber,
) -> bool
    requires { (p.0 < 16) × (words_place (j.0 + 1) ≤ length held.now) }
    ensures { result ≡ process_ok count.n width.w (seen_from held.now j.0 p.0) }
{
    let own = layout::holding_place(j, p);
    let call = layout::call_place(p);
    let (line, word, steps) = if is_away(held, j, p) {
        (0, 0, 0)
    } else {
        (held[call], held[call + 1], held[call + 2])
    };
    holding_ok(count, held, own)
        && buffer_ok(count, held[call + 4])
        && buffer_ok(count, held[call + 5])
        && buffer_ok(count, held[call + 6])
        && buffer_ok(count, held[call + 7])
        && line_ok(line)
        && word < sizes::halves(width) as u64
        && count_ok(width, line, steps)
}
