// Row 9 of the refusal table: whether the numbers of the lent records are in their ranges, over what N needs (01, "When
// the bench says no").
ghost use Rattle.std.specs.Prelude.{◌≡◌, ◌≤◌, ◌&&◌, ltb, take};
ghost use Rattle.model.specs.Sizes.{sequence_numbers, halves};
ghost use Rattle.std.specs.List.{list_all};
ghost use Rattle.model.specs.Refusals.{buffer_ok, sequence_ok, x_ok, links_ok, x_place_ok, bank_place_ok, help_place_ok, is_idle, line_ok, count_ok, process_ok, bench_ok};

use lines::points;
use llsc::counts::{Processes, Width};
use model::{
    BankPlace, Bench, BufferNumber, HelpPlace, Process, SequenceNumber, XContent, XPlace, sizes,
};

// A buffer number is below 3N.
// Kept: beside `sequence_ok`: one comparison each, of numbers of two kinds, and the bound of each is a function.
pub fn buffer_ok(count: Processes, b: BufferNumber) -> bool
    ensures { result ≡ buffer_ok count.n b }
{
    (b.0 as usize) < sizes::buffers(count)
}

// A sequence number is below 2N.
pub fn sequence_ok(count: Processes, s: SequenceNumber) -> bool
    ensures { result ≡ sequence_ok count.n s }
{
    (s.0 as usize) < sizes::sequence_numbers(count)
}

// What X holds.
// Kept: beside `x_place_ok` and `bank_place_ok`: each is two parts that 01 names; one of all three would be its `&&`.
pub fn x_ok(count: Processes, x: XContent) -> bool
    ensures { result ≡ x_ok count.n x }
{
    buffer_ok(count, x.buf) && sequence_ok(count, x.seq)
}

// No process from N on has a link.
pub fn links_ok(count: Processes, links: u16) -> bool
    ensures { result ≡ links_ok count.n links }
{
    (links as usize) < (1usize << count.n)
}

// X with its links.
pub fn x_place_ok(count: Processes, x: XPlace) -> bool
    ensures { result ≡ x_place_ok count.n x }
{
    x_ok(count, x.content) && links_ok(count, x.links)
}

// A place of Bank with its links.
pub fn bank_place_ok(count: Processes, bank: BankPlace) -> bool
    ensures { result ≡ bank_place_ok count.n bank }
{
    buffer_ok(count, bank.content) && links_ok(count, bank.links)
}

// A place of Help with its links: its flag is 0 or 1.
pub fn help_place_ok(count: Processes, help: HelpPlace) -> bool
    ensures { result ≡ help_place_ok count.n help }
{
    help.content.flag <= 1 && buffer_ok(count, help.content.buf) && links_ok(count, help.links)
}

// Whether a process has no open call.
// Kept: beside `moir_rows`' own: one comparison, of a field of another record, with that bench's own constant.
pub fn is_idle(process: Process) -> bool
    ensures { result ≡ is_idle process }
{
    process.line == points::IDLE
}

// Idle, or a point of Figure 2: 16, and 20 to 22, are none.
pub fn line_ok(process: Process) -> bool
    ensures { result ≡ line_ok process }
{
    matches!(
        process.line,
        0..=points::LINE_15
            | points::LINE_17..=points::LINE_19
            | points::LINE_23..=points::LINE_14_VALID
    )
}

// An idle process has count 0, a busy one at most 8W+6.
// Kept: beside `moir_rows`' own, as Moir's process is another record, with another most.
pub fn count_ok(width: Width, process: Process) -> bool
    ensures { result ≡ count_ok width.w process }
{
    let most = if is_idle(process) {
        0
    } else {
        sizes::busy_most(width)
    };
    process.count <= most
}

// A process record.
pub fn process_ok(count: Processes, width: Width, process: Process) -> bool
    ensures { result ≡ process_ok count.n width.w process }
{
    buffer_ok(count, process.mybuf)
        && x_ok(count, process.x)
        && buffer_ok(count, process.b)
        && buffer_ok(count, process.c)
        && buffer_ok(count, process.d)
        && buffer_ok(count, process.e)
        && line_ok(process)
        && process.word < sizes::halves(width)
        && count_ok(width, process)
}

// The places of Bank that N needs.
fn banks_ok(count: Processes, bench: Bench) -> bool
    ensures { result ≡ list_all (bank_place_ok count.n) (take (sequence_numbers count.n) bench.bank) }
{
    let places = sizes::sequence_numbers(count);
    bench
        .bank
        .iter()
        .take(places)
        .all(|bank| bank_place_ok(count, *bank))
}

// The places of Help that N needs.
fn helps_ok(count: Processes, bench: Bench) -> bool
    ensures { result ≡ list_all (help_place_ok count.n) (take count.n bench.help) }
{
    bench
        .help
        .iter()
        .take(count.n)
        .all(|help| help_place_ok(count, *help))
}

// The bench record.
#[tactic(auto, using(laws::proofs::ListLaws::every_is_all))]
pub fn bench_ok(bench: Bench) -> bool
    requires { bench.n ≤ 16 }
    ensures { result ≡ bench_ok bench }
{
    let count = Processes { n: bench.n };
    x_place_ok(count, bench.x) && banks_ok(count, bench) && helps_ok(count, bench)
}
