// What a command needs of the numbers, by value. They are in range, and so fit.
ghost use Rattle.std.specs.Prelude.{◌≡◌, ◌+◌, ◌<◌, ◌≤◌, length};
ghost use Rattle.held_model.specs.Memory.{number_at, x_from, bank_from, help_from};
ghost use Rattle.held_rows.specs.Reads.{seen_from, XFits, BankFits, HelpFits, ProcessFits};
ghost use Rattle.held_model.specs.Layout.{words_place};

use crate::{layout, ranges};
use llsc::ProcessNumber;
use model::{
    BankPlace, BufferNumber, HelpContent, HelpPlace, Place, Process, SequenceNumber, XContent,
    XPlace,
};
use station::RecordNumber;

// A number as a size, 0 past the end.
pub fn size_at(held: &[u64], k: usize) -> usize
    ensures { result ≡ number_at held.now k }
{
    held.get(k).copied().unwrap_or(0) as usize
}

// X, whose numbers begin at k.
#[inline(always)]
pub fn x_at(held: &[u64], k: usize) -> XPlace
    requires { (k + 3 ≤ length held.now) × XFits (x_from held.now k) }
    ensures { result ≡ x_from held.now k }
{
    Place {
        content: XContent {
            buf: BufferNumber(held[k] as u8),
            seq: SequenceNumber(held[k + 1] as u8),
        },
        links: held[k + 2] as u16,
    }
}

// A place of Bank.
#[inline(always)]
pub fn bank_at(held: &[u64], k: usize) -> BankPlace
    requires { (k + 2 ≤ length held.now) × BankFits (bank_from held.now k) }
    ensures { result ≡ bank_from held.now k }
{
    Place {
        content: BufferNumber(held[k] as u8),
        links: held[k + 1] as u16,
    }
}

// A place of Help.
#[inline(always)]
pub fn help_at(held: &[u64], k: usize) -> HelpPlace
    requires { (k + 3 ≤ length held.now) × HelpFits (help_from held.now k) }
    ensures { result ≡ help_from held.now k }
{
    Place {
        content: HelpContent {
            flag: held[k] as u8,
            buf: BufferNumber(held[k + 1] as u8),
        },
        links: held[k + 2] as u16,
    }
}

// Process p as record j's bench has it.
#[inline(always)]
pub fn process_at(held: &[u64], j: RecordNumber, p: ProcessNumber) -> Process
    requires { (p.0 < 16) × ((words_place (j.0 + 1) ≤ length held.now) × ProcessFits (seen_from held.now j.0 p.0)) }
    ensures { result ≡ seen_from held.now j.0 p.0 }
{
    let own = layout::holding_place(j, p);
    let call = layout::call_place(p);
    let (line, word, count) = if ranges::is_away(held, j, p) {
        (0, 0, 0)
    } else {
        (held[call], held[call + 1], held[call + 2])
    };
    Process {
        mybuf: BufferNumber(held[own] as u8),
        x: XContent {
            buf: BufferNumber(held[own + 1] as u8),
            seq: SequenceNumber(held[own + 2] as u8),
        },
        line: line as u8,
        word: word as usize,
        count: count as usize,
        answered: held[own + 3] != 0,
        b: BufferNumber(held[call + 4] as u8),
        c: BufferNumber(held[call + 5] as u8),
        d: BufferNumber(held[call + 6] as u8),
        e: BufferNumber(held[call + 7] as u8),
    }
}
