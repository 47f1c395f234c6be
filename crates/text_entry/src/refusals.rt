// What refuses an entry of a run that goes on.
ghost use Rattle.std.specs.Prelude.{◌≡◌};
ghost use Rattle.llsc.specs.Refusals.{number_told};
ghost use Rattle.text_entry.specs.Turned.{refusal_of};

use llsc::Order;
use llsc::refusals::Refusal;
use model::Process;
use rows::{causes, ranges};
use text_runs::limits;

// "before each entry 12, then 14", then rows 4, 5, 6, 7. After a set-up rows 1, 2, 3 and 9 cannot hold, and a text's SC
// brings W words, so nothing else can refuse. The record is not looked at where the process is none of N.
pub fn refusal(
    order: Order,
    entries: usize,
    room: usize,
    needed: usize,
    n: usize,
    p: u64,
    process: Process,
) -> Result<(), Refusal>
    ensures { number_told result ≡ refusal_of order entries room needed n p process }
{
    limits::before_entry(entries, room, needed)?;
    Refusal::NoSuchProcess.if_holds(n as u64 <= p)?;
    let idle = ranges::is_idle(process);
    Refusal::StartAtBusy.if_holds(causes::start_at_busy(order, idle))?;
    Refusal::StepAtIdle.if_holds(causes::step_at_idle(order, idle))?;
    Refusal::NeverLinked.if_holds(causes::never_linked(order, process.answered))
}
