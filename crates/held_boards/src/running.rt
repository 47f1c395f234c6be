// The records of a file, one command after the other, up to the first refusal.
ghost use Rattle.std.specs.Prelude.{◌≡◌, ◌≤◌};
ghost use Rattle.boards.specs.Files.{record_of};
ghost use Rattle.boards.specs.Places.{read};
ghost use Rattle.board_commands.specs.BoardRun.{command_of};
ghost use Rattle.board_commands.specs.ByValue.{at_most64};
ghost use Rattle.held_model.specs.Memory.{number_at};
ghost use Rattle.held_model.specs.HeldCommand.{Commanded};
ghost use Rattle.held_boards.specs.FileDone.{RecordsDone, FileDone};

use board_commands::FileRun;
use board_commands::commands::order_of;
use board_rows::right_records;
use boards::records::{self, Record};
use held_machine::stepping;
use held_model::Told;
use held_rows::reads::size_at;
use text_runs::lists::repeated;

// How many words of a value are brought: where W is over 64 a command is refused before they are counted.
fn words_brought(held: &[u64]) -> usize
    ensures is { result ≡ at_most64 (number_at held.now 1) }
    ensures few { result ≤ 64 }
{
    size_at(held, 1).min(64)
}

// The command of a record.
fn give(held: &mut [u64], bytes: &Record) -> Told
    ensures { Commanded held.old (command_of (number_at held.old 1) (record_of bytes.now)) result held.new }
{
    let value = repeated(records::value(bytes) as u64);
    let p = records::process(bytes) as usize;
    let order = order_of(records::order(bytes));
    let w = words_brought(held);
    stepping::whole_command(held, p, order, 0, &value[..w])
}

#[tactic(auto, using(crate::proofs::RunLaws::begins))]
fn run_records(held: &mut [u64], records: &[Record]) -> FileRun
    ensures { RecordsDone held.old (read records.now) result held.new }
{
    for (done, bytes) in records.iter().enumerate() {
        let told = give(held, bytes);
        if told.number != 0 {
            return FileRun {
                number: told.number,
                done,
            };
        }
    }
    FileRun {
        number: 0,
        done: records.len(),
    }
}

// A file, any bytes, is run on record 0 of any list, up to the first refusal.
// Ruled out: a refused command counted as done, a file begun whose last record is bad.
pub fn run_file(held: &mut [u64], file: &[u8]) -> FileRun
    ensures { FileDone held.old file.now result held.new }
{
    match right_records(file) {
        Ok(records) => run_records(held, records),
        Err(refusal) => FileRun {
            number: refusal.number(),
            done: 0,
        },
    }
}
