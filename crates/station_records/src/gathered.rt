// What is lent, by value.
ghost use Rattle.std.specs.Prelude.{◌≡◌, length};
ghost use Rattle.lent.specs.Gathered.{gathered};
ghost use Rattle.station.specs.StationSetUp.{empty_process};

use station::{Station, StationProcess};

// The station record, the first sixteen lent process records, with a filler where there are fewer, and how many were
// lent. The words stay where they lie.
// Kept: sixteen and a count, as there is no heap; `len` may be above sixteen, and row 3 holds it against N.
#[derive(Clone, Copy)]
pub struct Gathered {
    pub station: Station,
    pub all: [StationProcess; 16],
    pub len: usize,
}

// What is lent, gathered.
pub fn gather(station: Station, processes: &[StationProcess]) -> Gathered
    ensures { result ≡ record { station = station; all = gathered processes.now empty_process 16; len = length processes.now } }
{
    Gathered {
        station,
        all: lent::gather(processes, station::empty_process()),
        len: processes.len(),
    }
}
