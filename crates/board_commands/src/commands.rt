// A record of a trace file as a command on record 0 of a station.
ghost use Rattle.std.specs.Prelude.{◌≡◌};
ghost use Rattle.boards.specs.Files.{record_of};
ghost use Rattle.station_machine.specs.StationDecision.{numbered};
ghost use Rattle.board_commands.specs.BoardRun.{order_of};
ghost use Rattle.board_commands.specs.ByValue.{decided};

use boards::records::{self, Record};
use llsc::Order;
use llsc::refusals::Refusal;
use station_machine::Outcome;
use station_records::gathered::Gathered;
use station_rows::commands::{Command, Ordered};
use text_runs::lists::repeated;

// CR 12: "order (1: 0 step, 1 LL, 2 SC, 3 VL)".
// Kept: neither `u8` nor `Order` is this crate's, so there is no `From` of one for the other.
pub fn order_of(byte: u8) -> Order
    ensures { result ≡ order_of byte }
{
    match byte {
        0 => Order::Step,
        1 => Order::StartLl,
        2 => Order::StartSc,
        _ => Order::StartVl,
    }
}

// The command of a record.
pub fn decide(lent: Gathered, bytes: &Record, words: &mut [u64]) -> Result<Outcome, Refusal>
    ensures { (numbered result, words.new)
        ≡ decided lent.station lent.all lent.len (record_of bytes.now) words.old }
{
    let value = repeated(records::value(bytes) as u64);
    let p = records::process(bytes) as usize;
    let order = order_of(records::order(bytes));
    // Where W is over 64 a command is refused before its value's words are counted.
    let w = lent.station.w.min(64);
    let command = Command {
        process: p,
        order: Ordered::new(order, 0),
    };
    station_machine::decide(lent, command, &value[..w], words)
}
