// A text run on a station, by value: "Text and listing keep to one record". Record 0 is taken out once, the bench's own
// text run is made on it, and it is put back once.

#![tactic(auto)]

ghost use Rattle.std.specs.Prelude.{◌≡◌, ◌≤◌};
ghost use Rattle.station.specs.Projection.{process_of};
ghost use Rattle.station_records.specs.Gathered.{LentProcesses};
ghost use Rattle.station_text_machine.specs.StationText.{record0};
ghost use Rattle.station_text_machine.specs.TextByValue.{bench_before, records_before, station_ran, processes_ran, put_back, StationRan};

use model::{Bench, Process};
use station::{RecordNumber, Station, StationProcess, Tables};
use station_records::gathered::Gathered;
use station_records::left::Left;
use text_entry::state::Held;
use text_machine::text_run;
use text_runs::runs::Finished;

// Record 0 as a bench that is not set up.
fn bench_before(station: Station) -> Bench
    ensures { result ≡ bench_before station }
{
    let Tables { x, bank, help } = station_records::tables_at(station, RecordNumber(0));
    Bench {
        n: 0,
        w: 0,
        x,
        bank,
        help,
    }
}

// A process as record 0 has it.
fn seen(process: StationProcess) -> Process
    ensures { result ≡ process_of record0 process }
{
    station_records::process_of(RecordNumber(0), process)
}

fn records_before(all: [StationProcess; 16]) -> [Process; 16]
    ensures { result ≡ records_before all }
{
    all.map(|process| seen(process))
}

// N, W, R = 1 and the tables of record 0.
fn station_ran(station: Station, bench: Bench) -> Station
    ensures { result ≡ station_ran station bench }
{
    let mut next = station_records::put_bench(station, RecordNumber(0), bench);
    next.n = bench.n;
    next.w = bench.w;
    next.r = 1;
    next
}

// The first `count` processes, with what record 0's run made of them.
fn processes_ran(
    mut all: [StationProcess; 16],
    records: [Process; 16],
    count: usize,
) -> [StationProcess; 16]
    requires { count ≤ 16 }
    ensures { result ≡ processes_ran all records count }
{
    for i in 0..count {
        all[i] = station_records::put_process(RecordNumber(0), all[i], records[i]);
    }
    all
}

// Nothing is left to store where the run was refused before its set-up: its bench is then not set up, and has N = 0.
// Kept: N = 0 tells it, which only a bench that `bench_before` made has: a run hands back what it was lent.
#[tactic(auto, unfolding(crate::specs::TextByValue::put_back), using(text_machine::proofs::RecordLaws::sixteen_most))]
fn put_back(station: Station, all: [StationProcess; 16], held: Held) -> Option<Left>
    ensures { result ≡ put_back station all held }
{
    let Held {
        bench,
        all: records,
    } = held;
    if bench.n == 0 {
        return None;
    }
    let count = text_run::records_seen(bench.n);
    Some(Left {
        station: station_ran(station, bench),
        all: processes_ran(all, records, count),
    })
}

// What is lent, gathered: `all` holds the first sixteen of `len` process records, with a filler where there are fewer.
#[tactic(auto, using(crate::proofs::StoredRun::run_put_back))]
pub fn run_by_value(
    lent: Gathered,
    words: &mut [u64],
    text: &[u8],
    listing: &mut [u8],
) -> Finished<Option<Left>>
    requires { LentProcesses lent.all lent.len }
    ensures { StationRan lent.station lent.all lent.len words.old text.now listing.old
        result words.new listing.new }
{
    let Gathered { station, all, len } = lent;
    let held = Held {
        bench: bench_before(station),
        all: records_before(all),
    };
    let out = text_run::run_by_value(held, len, false, words, text, listing);
    out.holding(put_back(station, all, out.held))
}
