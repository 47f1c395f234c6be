// Row 9 of the refusal table over the numbers of a held list: a number that is too large for its field is out of its
// range like any other.
ghost use Rattle.std.specs.Prelude.{◌≡◌, ◌+◌, ◌≤◌, ◌<◌, leb, cond, eqb, length};
ghost use Rattle.moir_model.specs.Sizes.{busy_most};
ghost use Rattle.moir_model.specs.Refusals.{header_ok};
ghost use Rattle.held_model.specs.Memory.{number_at};
ghost use Rattle.moir_held_model.specs.Memory.{header_from, process_from};
ghost use Rattle.moir_held_model.specs.Ranges.{tag_ok, header_whole, process_whole};
ghost use Rattle.moir_held_rows.specs.Reads.{line_number_ok};

use crate::layout;
use llsc::ProcessNumber;
use llsc::counts::{Processes, Width};
use moir_model::sizes;

// A tag has sixteen bits.
pub fn tag_ok(tag: u64) -> bool
    ensures { result ≡ tag_ok tag }
{
    tag < 65536
}

// A header's process is below N.
fn process_named_ok(n: usize, held: &[u64], k: usize) -> bool
    requires { k + 2 ≤ length held.now }
    ensures { result ≡ header_ok n (header_from held.now k) }
{
    held[k + 1] < n as u64
}

// A header, whose numbers begin at k.
pub fn header_ok(n: usize, held: &[u64], k: usize) -> bool
    requires { k + 2 ≤ length held.now }
    ensures { result ≡ header_whole n (header_from held.now k) }
{
    process_named_ok(n, held, k) && tag_ok(held[k])
}

// Idle, or a point of Figure 6.
fn line_ok(line: u64) -> bool
    ensures { result ≡ line_number_ok line }
{
    matches!(line, 0 | 2 | 4..=7 | 10 | 13 | 14 | 17 | 19 | 22 | 24..=27)
}

// An idle process has count 0, a busy one at most 6W+1.
fn count_ok(width: Width, line: u64, count: u64) -> bool
    ensures { result ≡ leb count (cond (eqb line 0) 0 (busy_most width.w)) }
{
    let most = if line == 0 {
        0
    } else {
        sizes::busy_most(width)
    };
    count <= most as u64
}

// A process.
pub fn process_ok(count: Processes, width: Width, held: &[u64], p: ProcessNumber) -> bool
    requires { (p.0 < 16) × (340 ≤ length held.now) }
    ensures { result ≡ process_whole count.n width.w (process_from held.now p.0) }
{
    let at = layout::process_place(p);
    let n = count.n;
    let ranges = process_named_ok(n, held, at + 5)
        && process_named_ok(n, held, at + 7)
        && process_named_ok(n, held, at + 9)
        && process_named_ok(n, held, at + 11)
        && line_ok(held[at])
        && held[at + 1] < width.w as u64
        && count_ok(width, held[at], held[at + 2]);
    ranges
        && tag_ok(held[at + 4])
        && tag_ok(held[at + 5])
        && tag_ok(held[at + 7])
        && tag_ok(held[at + 9])
        && tag_ok(held[at + 11])
        && tag_ok(held[at + 13])
        && tag_ok(held[at + 15])
}
