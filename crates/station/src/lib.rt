// The declared types of a station: 1 to 8 records shared by N processes.

#![tactic(auto)]

ghost use Rattle.std.specs.Prelude.{◌≡◌};
ghost use Rattle.station.specs.Station.{no_holding};
ghost use Rattle.station.specs.Projection.{at_rest};
ghost use Rattle.station.specs.StationSetUp.{empty_tables, empty_station, empty_process};

use model::{BankPlace, BufferNumber, HelpPlace, XContent, XPlace};

// A record's number, below R.
#[derive(Clone, Copy, Default, PartialEq, Eq)]
pub struct RecordNumber(pub u8);

// A record's X, Bank and Help, with their links.
#[derive(Clone, Copy)]
pub struct Tables {
    pub x: XPlace,
    pub bank: [BankPlace; 32],
    pub help: [HelpPlace; 16],
}

// What a process holds of one record.
#[derive(Clone, Copy, Default)]
pub struct Holding {
    pub mybuf: BufferNumber,
    pub x: XContent,
    pub answered: bool,
}

// A process: what it holds of each record, and its one open call, with that call's record number, 0 when idle.
// Its return area and its offer area lie in the lent words.
// Kept: `count` is of the call's steps, not of `holdings`; `called` is 0 when idle, as row 9 asks of a lent record.
#[derive(Clone, Copy, Default)]
pub struct StationProcess {
    pub holdings: [Holding; 8],
    pub called: RecordNumber,
    pub line: u8,
    pub word: usize,
    pub count: usize,
    pub b: BufferNumber,
    pub c: BufferNumber,
    pub d: BufferNumber,
    pub e: BufferNumber,
}

impl StationProcess {
    // Whether it has no open call.
    pub fn is_at_rest(self) -> bool
        ensures { result ≡ at_rest self }
    {
        self.line == 0
    }
}

// The station record: N, W, R and the tables of each record.
#[derive(Clone, Copy)]
pub struct Station {
    pub n: usize,
    pub w: usize,
    pub r: usize,
    pub tables: [Tables; 8],
}

// The tables of a record before any set-up.
// Kept: written out: tried as a derived `Default`, which the check does not find equal to the definition.
fn empty_tables() -> Tables
    ensures { result ≡ empty_tables }
{
    Tables {
        x: model::x_at_set_up(),
        bank: [model::bank_at_set_up(0); 32],
        help: [model::help_at_set_up(); 16],
    }
}

// A station record before any set-up, for a program to lend.
// Kept: written out, as `empty_tables`.
pub fn empty_station() -> Station
    ensures { result ≡ empty_station }
{
    Station {
        n: 0,
        w: 0,
        r: 0,
        tables: [empty_tables(); 8],
    }
}

// What a process holds of a record before any set-up.
pub fn empty_holding() -> Holding
    ensures { result ≡ no_holding }
{
    Holding::default()
}

// A process record before any set-up, for a program to lend.
pub fn empty_process() -> StationProcess
    ensures { result ≡ empty_process }
{
    StationProcess::default()
}
