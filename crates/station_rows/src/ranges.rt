// Row 9 of a station: every record's tables, every process as each record's bench has it, and the record numbers.
ghost use Rattle.std.specs.Prelude.{◌≡◌, [], ◌≤◌, take};
ghost use Rattle.std.specs.List.{list_all};
ghost use Rattle.llsc.specs.Rows.{every};
ghost use Rattle.model.specs.Refusals.{bench_ok, process_ok};
ghost use Rattle.model.specs.SetUp.{numbers};
ghost use Rattle.station.specs.Station.{station_memory};
ghost use Rattle.station.specs.Projection.{process_of};
ghost use Rattle.station.specs.StationRefusals.{called_ok, station_process_ok, station_in_range};
ghost use Rattle.station_records.specs.TakenOut.{bench_in};

use crate::sizes::Sizes;
use llsc::counts::{Processes, Width};
use station::{RecordNumber, Station, StationProcess};

// The open call's record is below R, and 0 when idle.
pub fn called_ok(r: usize, q: StationProcess) -> bool
    ensures { result ≡ called_ok r q }
{
    (q.called.0 as usize) < r && (!q.is_at_rest() || q.called == RecordNumber(0))
}

// The process as each of the R records' benches has it.
pub fn seen_ok(sizes: Sizes, q: StationProcess) -> bool
    ensures { result ≡ every (λ j. process_ok sizes.n sizes.w (process_of (record { 0 = j }) q)) (numbers 0 sizes.r) }
{
    let Sizes { n, w, r } = sizes;
    let count = Processes { n };
    let width = Width { w };
    (0..r).all(|j| {
        let process = station_records::process_of(RecordNumber(j as u8), q);
        rows::ranges::process_ok(count, width, process)
    })
}

// A process record.
pub fn process_ok(sizes: Sizes, q: StationProcess) -> bool
    ensures { result ≡ station_process_ok sizes.n sizes.w sizes.r q }
{
    called_ok(sizes.r, q) && seen_ok(sizes, q)
}

// The first N of sixteen process records.
fn processes_ok(sizes: Sizes, all: [StationProcess; 16]) -> bool
    ensures { result ≡ list_all (station_process_ok sizes.n sizes.w sizes.r) (take sizes.n all) }
{
    all.iter().take(sizes.n).all(|q| process_ok(sizes, *q))
}

// The tables of the R records.
pub fn benches_ok(station: Station) -> bool
    requires { (station.n ≤ 16) × (station.r ≤ 8) }
    ensures { result ≡ every (λ j. bench_ok (bench_in station (record { 0 = j }))) (numbers 0 station.r) }
{
    (0..station.r).all(|j| {
        let bench = station_records::bench_of(station, RecordNumber(j as u8));
        rows::ranges::bench_ok(bench)
    })
}

// Row 9, over the station record and the process records.
#[tactic(auto, using(laws::proofs::ListLaws::every_is_all), unfolding(station::specs::StationRefusals::station_in_range))]
pub fn in_range(station: Station, all: [StationProcess; 16]) -> bool
    requires { (station.n ≤ 16) × ((station.w ≤ 64) × (station.r ≤ 8)) }
    ensures { result ≡ station_in_range (station_memory station all []) }
{
    let Station { n, w, r, .. } = station;
    benches_ok(station) && processes_ok(Sizes { n, w, r }, all)
}
