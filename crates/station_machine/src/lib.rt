// The whole command of a station by value: the refusal table in row order, or the order obeyed on its record.

#![tactic(auto)]

ghost use Rattle.std.specs.Prelude.{◌≡◌, ◌<◌, Ok, length};
ghost use Rattle.station_rows.specs.Ordered.{order_in, number_in};
ghost use Rattle.station_rows.specs.StationCommandRows.{station_number};
ghost use Rattle.station_machine.specs.StationDecision.{Sizes, RowsOf, obeyed_outcome, numbered, station_decided};

use llsc::ProcessNumber;
use llsc::counts::Processes;
use llsc::refusals::Refusal;
use model::{Moved, Reply, sizes};
use station::{RecordNumber, Station, StationProcess};
use station_records::gathered::Gathered;
use station_rows::commands::Command;
use station_rows::{causes, table};
use steps::orders;
use words::layouts::FirstRows;

// What a command that is obeyed comes to. The caller stores `process` at place `at`.
#[derive(Clone, Copy)]
pub struct Outcome {
    pub station: Station,
    pub at: usize,
    pub process: StationProcess,
    pub reply: Reply,
}

fn obeyed(station: Station, j: RecordNumber, q: StationProcess, moved: Moved, p: usize) -> Outcome
    requires { j.0 < 8 }
    ensures { result ≡ obeyed_outcome station j q moved p }
{
    Outcome {
        station: station_records::put_bench(station, j, moved.bench),
        at: p,
        process: station_records::put_process(j, q, moved.process),
        reply: moved.reply,
    }
}

// The rows at which record j's words begin.
fn rows_of(station: Station, j: RecordNumber) -> FirstRows
    requires { Sizes station × (j.0 < 8) }
    ensures { RowsOf station j result }
{
    let each = sizes::buffers(Processes { n: station.n });
    let records = station.r * each;
    FirstRows {
        buffers: (j.0 as usize) * each,
        returns: records,
        offers: records + station.n,
        w: station.w,
    }
}

// A command that no row refuses.
#[tactic(auto, using(crate::proofs::StationObeyLaws::order_small))]
pub fn obey(lent: Gathered, command: Command, value: &[u64], words: &mut [u64]) -> Outcome
    requires { station_number lent.station lent.all lent.len command.process (order_in command.order) (number_in command.order)
        (length value.now) (length words.old) ≡ 0 }
    ensures { (Ok result, words.new)
        ≡ station_decided lent.station lent.all lent.len command.process (order_in command.order) (number_in command.order) value.now words.old }
{
    let Command { process: p, order } = command;
    let Gathered { station, all, .. } = lent;
    let me = ProcessNumber(p as u8);
    let q = all[me.record_place()];
    let j = RecordNumber(causes::record_about(order, q) as u8);
    let bench = station_records::bench_of(station, j);
    let process = station_records::process_of(j, q);
    let rows = rows_of(station, j);
    let moved = orders::obey_in(rows, order.order(), me, value, bench, process, words);
    obeyed(station, j, q, moved, p)
}

// A command: refused by the first row that holds, and else obeyed.
#[tactic(auto, using(llsc::proofs::RefusalNumbers::number_some, crate::proofs::StationObeyLaws::refused_law))]
pub fn decide(
    lent: Gathered,
    command: Command,
    value: &[u64],
    words: &mut [u64],
) -> Result<Outcome, Refusal>
    ensures { (numbered result, words.new)
        ≡ station_decided lent.station lent.all lent.len command.process (order_in command.order) (number_in command.order) value.now words.old }
{
    table::refusal(lent, command, value.len(), words.len())?;
    Ok(obey(lent, command, value, words))
}
