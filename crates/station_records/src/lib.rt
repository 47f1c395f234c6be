// One record of a station, taken out by value and put back; each table is reached only by its own kind of number.
// Kept: j.0 < 8 is a clause, as a lent process record holds a `RecordNumber`, and may hold any number there.

#![tactic(auto)]

pub mod gathered;
pub mod left;

ghost use Rattle.std.specs.Prelude.{◌≡◌, ◌<◌, cond, eqb, get_or};
ghost use Rattle.station.specs.Station.{no_tables, holding_at};
ghost use Rattle.station.specs.Projection.{elsewhere, process_of, put_tables, put_process};
ghost use Rattle.station_records.specs.TakenOut.{bench_in, with_tables};

use model::{Bench, Process};
use station::{Holding, RecordNumber, Station, StationProcess, Tables};

// The tables of record j.
pub fn tables_at(station: Station, j: RecordNumber) -> Tables
    requires { j.0 < 8 }
    ensures { result ≡ get_or station.tables j.0 no_tables }
{
    station.tables[j.0 as usize]
}

// The bench record of record j.
pub fn bench_of(station: Station, j: RecordNumber) -> Bench
    requires { j.0 < 8 }
    ensures { result ≡ bench_in station j }
{
    let Tables { x, bank, help } = tables_at(station, j);
    Bench {
        n: station.n,
        w: station.w,
        x,
        bank,
        help,
    }
}

// The tables of record j, put back.
pub fn put_tables(mut station: Station, j: RecordNumber, t: Tables) -> Station
    requires { j.0 < 8 }
    ensures { result ≡ with_tables station j t }
{
    station.tables[j.0 as usize] = t;
    station
}

// The tables of a bench, put back as those of record j.
pub fn put_bench(station: Station, j: RecordNumber, bench: Bench) -> Station
    requires { j.0 < 8 }
    ensures { result ≡ with_tables station j (put_tables bench) }
{
    let Bench { x, bank, help, .. } = bench;
    put_tables(station, j, Tables { x, bank, help })
}

// What a process holds of record j.
pub fn holding_at(q: StationProcess, j: RecordNumber) -> Holding
    requires { j.0 < 8 }
    ensures { result ≡ holding_at q j }
{
    q.holdings[j.0 as usize]
}

// Whether the open call is on another record than j.
pub fn is_elsewhere(j: RecordNumber, q: StationProcess) -> bool
    ensures { result ≡ elsewhere j q }
{
    !q.is_at_rest() && q.called != j
}

// The process record as record j's bench has it.
pub fn process_of(j: RecordNumber, q: StationProcess) -> Process
    requires { j.0 < 8 }
    ensures { result ≡ process_of j q }
{
    let h = holding_at(q, j);
    let (line, word, count) = if is_elsewhere(j, q) {
        (0, 0, 0)
    } else {
        (q.line, q.word, q.count)
    };
    Process {
        mybuf: h.mybuf,
        x: h.x,
        line,
        word,
        count,
        answered: h.answered,
        b: q.b,
        c: q.c,
        d: q.d,
        e: q.e,
    }
}

// The open call's record number, 0 when idle.
fn called_after(j: RecordNumber, line: u8) -> RecordNumber
    ensures { result ≡ record { 0 = cond (eqb line 0) 0 j.0 } }
{
    if line == 0 { RecordNumber(0) } else { j }
}

// What record j's bench made of a process, put back.
pub fn put_process(j: RecordNumber, q: StationProcess, u: Process) -> StationProcess
    requires { j.0 < 8 }
    ensures { result ≡ put_process j q u }
{
    let mut holdings = q.holdings;
    holdings[j.0 as usize] = Holding {
        mybuf: u.mybuf,
        x: u.x,
        answered: u.answered,
    };
    StationProcess {
        holdings,
        called: called_after(j, u.line),
        line: u.line,
        word: u.word,
        count: u.count,
        b: u.b,
        c: u.c,
        d: u.d,
        e: u.e,
    }
}
