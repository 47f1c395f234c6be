// What a set-up or a run leaves of a station's records.
ghost use Rattle.std.specs.Prelude.{◌≡◌};
ghost use Rattle.station_records.specs.Gathered.{processes_stored};

use station::{Station, StationProcess};

// The station record, and sixteen process records, of which the first N are to be stored back.
#[derive(Clone, Copy)]
pub struct Left {
    pub station: Station,
    pub all: [StationProcess; 16],
}

impl Left {
    // Stored back where they lie.
    pub fn store(self, station: &mut Station, processes: &mut [StationProcess])
        ensures station { station.new ≡ self.station }
        ensures processes { processes.new ≡ processes_stored processes.old self.all self.station.n }
    {
        *station = self.station;
        lent::store_back(
            processes,
            &self.all,
            station::empty_process(),
            self.station.n,
        );
    }
}
