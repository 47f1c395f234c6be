// Row 27: a process in both files. The processes of the first are marked in a table.
ghost use Rattle.std.specs.Prelude.{◌≡◌, false, replicate};
ghost use Rattle.boards.specs.Merging.{share_process};
ghost use Rattle.boards.specs.Places.{read, marks};

use crate::records::{Record, process};

// The processes of these records, marked.
#[tactic(auto, using(crate::proofs::ProcessLaws::mark_next, crate::proofs::ProcessLaws::all_marked))]
fn marked(records: &[Record]) -> [bool; 256]
    ensures { result ≡ marks (read records.now) (replicate 256 false) }
{
    let mut table = [false; 256];
    for record in records {
        table[process(record) as usize] = true;
    }
    table
}

pub fn share_process(first: &[Record], second: &[Record]) -> bool
    ensures { result ≡ share_process (read first.now) (read second.now) }
{
    let table = marked(first);
    second.iter().any(|record| table[process(record) as usize])
}
