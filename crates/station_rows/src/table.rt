// The refusal table of a station in row order: 1, 2, 23, 3, 9, 4, 24, 8, 5, 6, 7.
ghost use Rattle.std.specs.Prelude.{◌≡◌, ◌≤◌};
ghost use Rattle.llsc.specs.Refusals.{number_told};
ghost use Rattle.station_rows.specs.Ordered.{order_in, number_in};
ghost use Rattle.station_rows.specs.StationCommandRows.{station_lent_number, station_memory_number, station_number, station_late_number};

use crate::commands::Command;
use crate::sizes::Sizes;
use crate::{causes, ranges};
use llsc::ProcessNumber;
use llsc::refusals::Refusal;
use rows::causes as plain;
use station_records::gathered::Gathered;

// Rows 1, 2, 23, 3, with which a command and a set-up begin: the first that holds.
#[tactic(auto, unfolding(crate::specs::StationCommandRows::station_lent_number))]
pub fn lent_refusal(
    n: usize,
    w: usize,
    r: usize,
    processes: usize,
    words: usize,
) -> Result<(), Refusal>
    ensures { number_told result ≡ station_lent_number n w r processes words }
{
    Refusal::NOutOfRange.if_holds(plain::n_out_of_range(n))?;
    Refusal::WOutOfRange.if_holds(plain::w_out_of_range(w))?;
    Refusal::ROutOfRange.if_holds(causes::r_out_of_range(r))?;
    let needed = causes::station_words(Sizes { n, w, r });
    Refusal::TooLittleLent.if_holds(plain::too_little_lent(n, needed, processes, words))
}

// Rows 1, 2, 23, 3, 9: whether the lent memory is in order, with so many words lent.
#[tactic(auto, unfolding(crate::specs::StationCommandRows::station_lent_number, crate::specs::StationCommandRows::station_memory_number))]
pub fn memory_refusal(lent: Gathered, words: usize) -> Result<(), Refusal>
    ensures { number_told result ≡ station_memory_number lent.station lent.all lent.len words }
{
    let station = lent.station;
    lent_refusal(station.n, station.w, station.r, lent.len, words)?;
    Refusal::NumberOutOfRange.if_holds(!ranges::in_range(station, lent.all))
}

// The first row that holds, for a value of so many words.
#[tactic(auto, using(crate::proofs::StationRowLaws::refusal_laws))]
pub fn refusal(lent: Gathered, command: Command, value: usize, words: usize) -> Result<(), Refusal>
    ensures { number_told result
        ≡ station_number lent.station lent.all lent.len command.process (order_in command.order) (number_in command.order) value words }
{
    memory_refusal(lent, words)?;
    late_refusal(lent, command, value)
}

// Rows 4, 24, 8, 5, 6, 7: all that a command can be refused for where the lent memory is in order.
#[tactic(auto, unfolding(crate::specs::StationCommandRows::station_late_number))]
pub fn late_refusal(lent: Gathered, command: Command, value: usize) -> Result<(), Refusal>
    requires { (lent.station.n ≤ 16) × (lent.station.r ≤ 8) }
    ensures { number_told result
        ≡ station_late_number lent.station lent.all command.process (order_in command.order) (number_in command.order) value }
{
    let Command { process, order } = command;
    let Gathered { station, all, .. } = lent;
    Refusal::NoSuchProcess.if_holds(plain::no_such_process(station.n, process))?;
    Refusal::NoSuchRecord.if_holds(causes::no_such_record(order, station.r))?;
    let q = all[ProcessNumber(process as u8).record_place()];
    let answered = causes::answered_for(order, q);
    rows::table::call_refusal(order.order(), station.w, value, q.is_at_rest(), answered)
}
