// The tables of the bench record, each reached only by its own kind of number.
// A table that is worked on where it stands is indexed by what its own function here makes of its kind (`bank_place`).
// Kept: i.0 < 32 is a clause, as the lent X holds a `SequenceNumber`, and lent memory may hold any number.

#![tactic(auto)]

ghost use Rattle.std.specs.Prelude.{◌≡◌, ◌<◌};
ghost use Rattle.model.specs.Tables.{bank_at, help_at, put_x, put_bank, put_help};

use llsc::ProcessNumber;
use model::{BankPlace, Bench, HelpPlace, SequenceNumber, XPlace};

// The place in Bank that a sequence number names.
// Kept: no `usize::from` of each kind, by which either table could be asked by the other's numbers.
pub fn bank_place(i: SequenceNumber) -> usize
    ensures { result ≡ i.0 }
{
    i.0 as usize
}

// The place in Help that a process number names.
pub fn help_place(i: ProcessNumber) -> usize
    ensures { result ≡ i.0 }
{
    i.0 as usize
}

// Bank[i].
pub fn bank_at(bench: Bench, i: SequenceNumber) -> BankPlace
    requires { i.0 < 32 }
    ensures { result ≡ bank_at bench i }
{
    bench.bank[bank_place(i)]
}

// Help[i].
pub fn help_at(bench: Bench, i: ProcessNumber) -> HelpPlace
    requires { i.0 < 16 }
    ensures { result ≡ help_at bench i }
{
    bench.help[help_place(i)]
}

// The bench with another X.
pub fn put_x(bench: Bench, x: XPlace) -> Bench
    ensures { result ≡ put_x bench x }
{
    Bench { x, ..bench }
}

// The bench with another Bank[i].
// Kept: beside `put_help`, as each table is a field of its own, reached by its own kind of number.
pub fn put_bank(bench: Bench, i: SequenceNumber, place: BankPlace) -> Bench
    requires { i.0 < 32 }
    ensures { result ≡ put_bank bench i place }
{
    let mut bench = bench;
    bench.bank[bank_place(i)] = place;
    bench
}

// The bench with another Help[i].
pub fn put_help(bench: Bench, i: ProcessNumber, place: HelpPlace) -> Bench
    requires { i.0 < 16 }
    ensures { result ≡ put_help bench i place }
{
    let mut bench = bench;
    bench.help[help_place(i)] = place;
    bench
}
