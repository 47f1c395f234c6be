// The entry for a turn of process 0 or 1 over lent memory (CR 5).
ghost use Rattle.std.specs.Prelude.{◌≡◌};
ghost use Rattle.station.specs.Station.{station_memory};
ghost use Rattle.turns_model.specs.Turns.{turn_of};

use station::{Station, StationProcess};
use station_records::gathered::gather;
use turns_model::{NextCall, Turned};

// Process `turn`, any number, has its turn. `left` is how many calls are on its list, `next` the first of them and
// `value` the words that it brings; where the list is empty, `next` and `value` are not looked at.
// What the turn came to, the calls left and all lent memory after it are those of `turn_of`.
// Wrong programs that this rules out: one that lets a pass by while a number in the lent records is out of range;
// one that keeps a refused call on the list, or drops one at row 9;
// one that looks at the second process record at N = 1.
// Kept: `next` beside `left`, though none is looked at where that is 0: users give both (02, CR 5).
#[tactic(auto, using(turns_machine::proofs::TurnDecisionLaws::turn_law))]
pub fn turn(
    station: &mut Station,
    processes: &mut [StationProcess],
    words: &mut [u64],
    turn: usize,
    next: NextCall,
    left: usize,
    value: &[u64],
) -> Turned
    ensures { (result, station_memory station.new processes.new words.new)
        ≡ turn_of (station_memory station.old processes.old words.old)
        turn next value.now left }
{
    let gathered = gather(*station, processes);
    let out = turns_machine::decide_turn(gathered, turn, next, left, value, words);
    let Some(obeyed) = out.obeyed else {
        return out.turned;
    };
    *station = obeyed.station;
    lent::store_at(processes, obeyed.at, obeyed.process);
    out.turned
}
