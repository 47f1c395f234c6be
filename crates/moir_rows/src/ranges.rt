// Row 9 of the refusal table: whether the numbers of the lent records are in their ranges, over what N needs.
ghost use Rattle.std.specs.Prelude.{◌≡◌, ◌≤◌, [], take};
ghost use Rattle.std.specs.List.{list_all};
ghost use Rattle.moir_model.specs.Refusals.{header_ok, is_idle, line_ok, count_ok, process_ok, in_range};

use llsc::counts::{Processes, Width};
use moir_lines::points;
use moir_model::{Bench, Header, Process, sizes};

// A header's process number is below N.
pub fn header_ok(n: usize, header: Header) -> bool
    ensures { result ≡ header_ok n header }
{
    (header.pid.0 as usize) < n
}

// Whether a process has no open call.
// Kept: beside `rows`' own: one comparison, of a field of another record, with that bench's own constant.
pub fn is_idle(process: Process) -> bool
    ensures { result ≡ is_idle process }
{
    process.line == points::IDLE
}

// Idle, or a point of Figure 6.
pub fn line_ok(process: Process) -> bool
    ensures { result ≡ line_ok process }
{
    matches!(
        process.line,
        points::IDLE
            | points::WLL_2
            | points::WLL_4..=points::WLL_7
            | points::WLL_10
            | points::VL_13
            | points::SC_14
            | points::SC_17
            | points::SC_19
            | points::SC_2
            | points::SC_4..=points::SC_7
    )
}

// An idle process has count 0, a busy one at most 6W+1.
// Kept: beside `rows`' own, whose most is 8W+6: one over idle, count and most would leave each its call and contract.
pub fn count_ok(width: Width, process: Process) -> bool
    ensures { result ≡ count_ok width.w process }
{
    let most = if is_idle(process) {
        0
    } else {
        sizes::busy_most(width)
    };
    process.count <= most
}

// A process record.
pub fn process_ok(n: usize, width: Width, process: Process) -> bool
    ensures { result ≡ process_ok n width.w process }
{
    header_ok(n, process.x)
        && header_ok(n, process.oldhdr)
        && header_ok(n, process.newhdr)
        && header_ok(n, process.h)
        && line_ok(process)
        && process.word < width.w
        && count_ok(width, process)
}

// The first N of sixteen records.
pub fn records_ok(count: Processes, width: Width, all: [Process; 16]) -> bool
    ensures { result ≡ list_all (process_ok count.n width.w) (take count.n all) }
{
    all.iter()
        .take(count.n)
        .all(|process| process_ok(count.n, width, *process))
}

// Row 9, over the bench and the records.
// Kept: N's and W's bounds as a clause: the bench is lent, with any numbers; rows 1 and 2 come first and ask for them.
#[tactic(auto, unfolding(moir_model::specs::Refusals::in_range))]
pub fn in_range(bench: Bench, all: [Process; 16]) -> bool
    requires { (bench.n ≤ 16) × (bench.w ≤ 64) }
    ensures { result ≡ in_range (record { bench = bench; records = all; words = [] }) }
{
    let count = Processes { n: bench.n };
    let width = Width { w: bench.w };
    header_ok(count.n, bench.header) && records_ok(count, width, all)
}
