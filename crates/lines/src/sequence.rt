// The arithmetic of sequence numbers.
ghost use Rattle.std.specs.Prelude.{◌≡◌, ◌%◌, ◌<◌, ◌≤◌};
ghost use Rattle.model.specs.Tables.{next, helped};
// Kept: `Sized n` is a clause, as n comes from a lent record: a type would be made of it at each step, and here undone.
ghost use Rattle.lines.specs.Ranges.{Sized};

use llsc::ProcessNumber;
use llsc::counts::Processes;
use model::{SequenceNumber, sizes};

// A rest that fits the one-byte kinds.
fn modulo(i: usize, m: usize) -> u8
    requires { (0 < m) × (m ≤ 32) }
    ensures { result ≡ i % m }
{
    (i % m) as u8
}

// (s + 1) mod 2N of lines 18 and 19.
pub fn following(n: usize, s: SequenceNumber) -> SequenceNumber
    requires { Sized n }
    ensures { result ≡ next n s }
{
    let i = s.0 as usize;
    SequenceNumber(modulo(i + 1, sizes::sequence_numbers(Processes { n })))
}

// s mod N of lines 14 and 15: whom the process helps.
pub fn helped_by(n: usize, s: SequenceNumber) -> ProcessNumber
    requires { Sized n }
    ensures { result ≡ helped n s }
{
    let i = s.0 as usize;
    ProcessNumber(modulo(i, n))
}
