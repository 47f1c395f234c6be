// The shared items that a step can touch. Nothing here runs.

#![tactic(auto)]

use llsc::ProcessNumber;
use model::{BufferNumber, SequenceNumber};

// A shared item of a record; of a half word of BUF, the buffer and the word place, which counts halves.
#[derive(Clone, Copy)]
pub enum Item {
    X,
    Bank(SequenceNumber),
    Help(ProcessNumber),
    Half(BufferNumber, usize),
}
