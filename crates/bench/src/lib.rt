// The public entries over lent memory: a set-up, a command and a text run of a station, the view of a written value, a
// turn (`turns`) and the run of a board's trace file (`board_files`). None asks anything of the caller.
// Kept: each takes what is lent, and what is ordered, one by one, as 01 names them to users.

#![tactic(auto)]

mod board_files;
mod turns;

ghost use Rattle.std.specs.Prelude.{◌≡◌};
ghost use Rattle.model.specs.View.{view_number, view};
ghost use Rattle.station.specs.Station.{station_memory};
ghost use Rattle.station.specs.StationCommand.{station_command};
ghost use Rattle.station.specs.StationSetUp.{station_set_up};
ghost use Rattle.station_text_machine.specs.StationText.{station_run_text};

pub use board_files::run_file;
use llsc::Order;
use llsc::refusals::number_of;
use model::Reply;
use station::{Station, StationProcess};
use station_records::gathered::gather;
use station_rows::commands::{Command, Ordered};
use station_setup::gathered::set_up_gathered;
pub use text_runs::returned::TextRun;
pub use turns::turn;

// Process `process`, any number, is given an order: a start names a record, any number, and brings the words of `value`
// where it starts an SC; a step goes to the record of the open call, whatever `named` and `value` are.
// The reply and all lent memory after it are those of `station_command`.
// Wrong programs that this rules out: one that keeps the link, the x or the mark of one record for another;
// one that puts the words of a refused SC into the offer area before it refuses;
// one that stores the stepped process's record at another place, or not at all.
pub fn command(
    station: &mut Station,
    processes: &mut [StationProcess],
    words: &mut [u64],
    process: usize,
    order: Order,
    named: usize,
    value: &[u64],
) -> Reply
    ensures { (result, station_memory station.new processes.new words.new)
        ≡ station_command (station_memory station.old processes.old words.old)
        (record { process = process; order = order; called = named; value = value.now }) }
{
    let gathered = gather(*station, processes);
    let command = Command {
        process,
        order: Ordered::new(order, named),
    };
    match station_machine::decide(gathered, command, value, words) {
        Ok(out) => {
            *station = out.station;
            lent::store_at(processes, out.at, out.process);
            out.reply
        }
        // Kept: 01 promises its users a number.
        Err(refusal) => Reply::Refused(refusal.number()),
    }
}

// A set-up for N = n, W = w and R = r with the given value, whatever the lent memory held. It answers the number of its
// refusal, 0 for none.
// The answer and all lent memory after it are those of `station_set_up`.
// Wrong programs that this rules out: one that gives the value to record 0 alone;
// one that clears the words and then finds that too few process records are lent;
// one that sets up every process record that is lent, and not the first N alone.
#[tactic(auto, using(llsc::proofs::RefusalNumbers::number_some, station_setup::proofs::StoredSetUp::set_up_same))]
pub fn set_up(
    station: &mut Station,
    processes: &mut [StationProcess],
    words: &mut [u64],
    n: usize,
    w: usize,
    r: usize,
    value: &[u64],
) -> u8
    ensures { (result, station_memory station.new processes.new words.new)
        ≡ station_set_up (station_memory station.old processes.old words.old) n w r value.now }
{
    let gathered = gather(*station, processes);
    // Kept: 01 promises its users a number.
    match set_up_gathered(gathered, n, w, r, value, words) {
        Ok(left) => {
            left.store(station, processes);
            0
        }
        Err(refusal) => refusal.number(),
    }
}

// A whole text run on record 0, on any text and any lent memory. What it returns, all lent memory and the listing after
// it are those of `station_run_text`.
// Wrong programs that this rules out: one that sets the station up and then finds a fault further on in the text;
// one that blanks the listing after its last line; one that clears what a process holds of another record.
#[tactic(auto, using(station_records::proofs::StoredLaws::left_is, station_records::proofs::StoredLaws::none_left))]
pub fn run_text(
    station: &mut Station,
    processes: &mut [StationProcess],
    words: &mut [u64],
    text: &[u8],
    listing: &mut [u8],
) -> TextRun
    ensures { record {
      number = result.number;
      entries = result.entries;
      written = result.written;
      memory = station_memory station.new processes.new words.new;
      listing = listing.new;
    }
        ≡ station_run_text (station_memory station.old processes.old words.old) text.now listing.old }
{
    let gathered = gather(*station, processes);
    let out = station_text_machine::run_by_value(gathered, words, text, listing);
    if let Some(left) = out.held {
        left.store(station, processes);
    }
    TextRun::from(out)
}

// The number of a view's refusal, 0 for none: rows 2, 3, 8, 15.
// Wrong programs that this rules out: one that takes the last success for one too many (15 at a good number);
// one that looks at the value before the list (8 where 3 comes first).
pub fn view_number(w: usize, value: &[u64], written: &[u64], k: usize) -> u8
    ensures { result ≡ view_number w value.now written.now k }
{
    // Kept: 01 promises its users a number.
    number_of(viewing::view_refusal(w, value, written, k))
}

// The words of success k, no copy: the set-up value for 0, else a part of the list; an empty part of the set-up value
// at a refusal. What it returns begins where the model says, and has those words.
// Wrong programs that this rules out: one that counts the successes in the list from 0, so that 1 shows the second;
// one that gives an empty part of the list at a refusal, or another place that happens to hold the same words.
pub fn view<'a>(w: usize, value: &'a [u64], written: &'a [u64], k: usize) -> &'a [u64]
    ensures { (result.ref_ptr, result.now) ≡ view w value.entry written.entry k }
{
    viewing::view(w, value, written, k)
}
