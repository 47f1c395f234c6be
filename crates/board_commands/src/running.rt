// The records of a file, one command after the other, up to the first refusal.
ghost use Rattle.std.specs.Prelude.{◌≡◌};
ghost use Rattle.boards.specs.Places.{read};
ghost use Rattle.board_commands.specs.ByValue.{left_with, records_run, file_run};

use crate::commands::decide;
use crate::{FileRun, RunLeft};
use board_rows::right_records;
use boards::records::Record;
use station::{Station, StationProcess};
use station_records::gathered::Gathered;
use station_records::left::Left;

// A run that ends here.
fn left_with(station: Station, all: [StationProcess; 16], number: u8, done: usize) -> RunLeft
    ensures { result ≡ left_with station all number done }
{
    let left = Left { station, all };
    RunLeft {
        left: (done > 0).then_some(left),
        ran: FileRun { number, done },
    }
}

#[tactic(auto, using(crate::proofs::RunLaws::goes_on, crate::proofs::RunLaws::ended))]
fn run_records(lent: Gathered, records: &[Record], words: &mut [u64]) -> RunLeft
    ensures { (result, words.new)
        ≡ records_run 0 (read records.now) lent.station lent.all lent.len words.old }
{
    let Gathered {
        mut station,
        mut all,
        ..
    } = lent;
    for (done, bytes) in records.iter().enumerate() {
        let here = Gathered {
            station,
            all,
            ..lent
        };
        match decide(here, bytes, words) {
            Ok(out) => {
                station = out.station;
                all[out.at] = out.process;
            }
            Err(refusal) => return left_with(station, all, refusal.number(), done),
        }
    }
    left_with(station, all, 0, records.len())
}

// The whole run: what it returns, the station and the process records after it, and the lent words are those of
// `file_run`.
// Ruled out: a refused command counted as done, the value in word 0 alone, a start on another record than 0.
pub fn run_by_value(lent: Gathered, file: &[u8], words: &mut [u64]) -> RunLeft
    ensures { (result, words.new)
        ≡ file_run file.now lent.station lent.all lent.len words.old }
{
    match right_records(file) {
        Ok(records) => run_records(lent, records, words),
        Err(refusal) => left_with(lent.station, lent.all, refusal.number(), 0),
    }
}
