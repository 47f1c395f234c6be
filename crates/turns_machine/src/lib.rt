// A turn of process 0 or 1 by value (CR 5): refused, passed over, or the command that it gives.

#![tactic(auto)]

ghost use Rattle.std.specs.Prelude.{◌≡◌, ◌<◌, Ok, length};
ghost use Rattle.llsc.specs.Refusals.{refusal_number};
ghost use Rattle.station_rows.specs.Ordered.{order_in, number_in};
ghost use Rattle.station_rows.specs.StationCommandRows.{station_memory_number};
ghost use Rattle.station_machine.specs.StationDecision.{station_decided};
ghost use Rattle.turns_machine.specs.TurnDecision.{unchanged_turn, refused_turn, commanded_turn, commanded_at};
ghost use Rattle.turns_machine.specs.TurnDecision.{rests_in, turn_decided};

use llsc::refusals::Refusal;
use llsc::{Order, ProcessNumber};
use model::Reply;
use station::StationProcess;
use station_machine::Outcome;
use station_records::gathered::Gathered;
use station_rows::commands::{Command, Ordered};
use station_rows::table;
use turns_model::{NextCall, TurnReply, Turned};

// What a turn comes to: what the command that it gave left to store, where one was obeyed.
#[derive(Clone, Copy)]
pub struct TurnOutcome {
    pub obeyed: Option<Outcome>,
    pub turned: Turned,
}

// A turn that gives no command, or one that is refused.
fn unchanged(reply: TurnReply, left: usize) -> TurnOutcome
    ensures { result ≡ unchanged_turn reply left }
{
    TurnOutcome {
        obeyed: None,
        turned: Turned { reply, left },
    }
}

fn refused(refusal: Refusal, left: usize) -> TurnOutcome
    ensures { result ≡ refused_turn (refusal_number refusal) left }
{
    // Kept: 01, and 02 for 22 to 24, promise users a number.
    let reply = Reply::Refused(refusal.number());
    unchanged(TurnReply::Replied(reply), left)
}

fn obeyed(out: Outcome, left: usize) -> TurnOutcome
    ensures { result ≡ commanded_turn left (Ok out) }
{
    TurnOutcome {
        obeyed: Some(out),
        turned: Turned {
            reply: TurnReply::Replied(out.reply),
            left,
        },
    }
}

// Whether process p has no open call; at N = 1 process 1 has none.
fn counts_as_idle(n: usize, all: [StationProcess; 16], p: usize) -> bool
    requires { p < 16 }
    ensures { result ≡ rests_in n all p }
{
    n <= p || all[ProcessNumber(p as u8).record_place()].is_at_rest()
}

// The command that the turn gives, with `left` calls left after it. The lent memory is in order, and is not looked at
// again.
#[tactic(auto, using(crate::proofs::TurnDecisionLaws::give_laws))]
fn give(
    lent: Gathered,
    command: Command,
    left: usize,
    value: &[u64],
    words: &mut [u64],
) -> TurnOutcome
    requires { station_memory_number lent.station lent.all lent.len (length words.old) ≡ 0 }
    ensures { (result, words.new)
        ≡ commanded_at left
        (station_decided lent.station lent.all lent.len command.process (order_in command.order) (number_in command.order) value.now words.old) }
{
    if let Err(refusal) = table::late_refusal(lent, command, value.len()) {
        return refused(refusal, left);
    }
    obeyed(station_machine::obey(lent, command, value, words), left)
}

// `next` is the first of the `left` calls on the list of process `turn`, and `value` the words that it brings.
#[tactic(auto, using(crate::proofs::TurnDecisionLaws::turn_laws))]
pub fn decide_turn(
    lent: Gathered,
    turn: usize,
    next: NextCall,
    left: usize,
    value: &[u64],
    words: &mut [u64],
) -> TurnOutcome
    ensures { (result, words.new)
        ≡ turn_decided lent.station lent.all lent.len turn next left value.now words.old }
{
    if turn > 1 {
        return refused(Refusal::NotASchedule, left);
    }
    if let Err(refusal) = table::memory_refusal(lent, words.len()) {
        return refused(refusal, left);
    }
    if !counts_as_idle(lent.station.n, lent.all, turn) {
        let step = Command {
            process: turn,
            order: Ordered::Step,
        };
        return give(lent, step, left, &value[..0], words);
    }
    if left == 0 {
        return unchanged(TurnReply::Passed, 0);
    }
    let start = Command {
        process: turn,
        order: Ordered::new(Order::from(next.kind), next.named),
    };
    give(lent, start, left - 1, value, words)
}
