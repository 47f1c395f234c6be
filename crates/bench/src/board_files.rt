// The entry for a run of a board's trace file over lent memory (CR 12).
ghost use Rattle.std.specs.Prelude.{◌≡◌};
ghost use Rattle.station.specs.Station.{station_memory};
ghost use Rattle.board_commands.specs.BoardRun.{run_file};

use board_commands::{FileRun, running};
use station::{Station, StationProcess};
use station_records::gathered::gather;

// A file, any bytes, is run on record 0 of any lent memory, up to the first refusal. What it returns and all lent
// memory after it are those of `run_file`.
// Wrong programs that this rules out: one that begins a file whose last record is bad; one that counts the refused
// command; one that puts an SC's value into word 0 alone; one that makes a set-up first.
#[tactic(auto, using(station_records::proofs::StoredLaws::left_is, station_records::proofs::StoredLaws::none_left, board_commands::proofs::StoredRun::stored_file))]
pub fn run_file(
    station: &mut Station,
    processes: &mut [StationProcess],
    words: &mut [u64],
    file: &[u8],
) -> FileRun
    ensures { (result, station_memory station.new processes.new words.new)
        ≡ run_file file.now
        (station_memory station.old processes.old words.old) }
{
    let out = running::run_by_value(gather(*station, processes), file, words);
    if let Some(left) = out.left {
        left.store(station, processes);
    }
    out.ran
}
