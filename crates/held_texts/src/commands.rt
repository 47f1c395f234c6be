// The command of an entry, on a held list of one record.
ghost use Rattle.std.specs.Prelude.{◌≡◌, ◌≤◌};
ghost use Rattle.text_runs.specs.TextRun.{process_of, order_of, value_of};
ghost use Rattle.notation.specs.Stretches.{Small};
ghost use Rattle.held_model.specs.Memory.{number_at};
ghost use Rattle.station_text_laws.specs.EntryByEntry.{on_record0};
ghost use Rattle.held_texts.specs.HeldRuns.{Obeyed, line_of_finish};

use held_machine::stepping;
use held_rows::{reads, table};
use llsc::Order;
use llsc::refusals::Refusal;
use notation::Entry;
use text_runs::{entries, lists};

// Refused, or done, by a look at what it reads alone.
fn command(held: &mut [u64], p: usize, order: Order, value: &[u64]) -> Result<(), Refusal>
    ensures { Obeyed held.old (on_record0 p order value.now) result held.new }
{
    table::near_refusal(held, p, order, 0, value)?;
    stepping::obeyed(held, p, order, 0, value);
    Ok(())
}

// "The value k has k in all W words": those of a start of SC. No other entry has any.
#[tactic(auto, using(crate::proofs::CommandLaws::carry_laws))]
pub fn carry(held: &mut [u64], e: Entry) -> Result<(), Refusal>
    requires { (number_at held.old 1 ≤ 64) × Small e }
    ensures { Obeyed held.old (on_record0 (process_of e) (order_of e) (value_of (number_at held.old 1) e)) result held.new }
{
    let p = entries::process_of(e) as usize;
    let order = entries::order_of(e);
    match e {
        Entry::StartSc(_, k) => {
            let value = lists::repeated(k);
            let w = reads::size_at(held, 1);
            command(held, p, order, &value[..w])
        }
        Entry::StartLl(_) | Entry::StartVl(_) | Entry::Step(_) | Entry::Finish(_) => {
            command(held, p, order, &[])
        }
    }
}

// "`!` is steps until the call answers": whether its process has an open call still.
#[tactic(auto, unfolding(crate::specs::HeldRuns::line_of_finish))]
pub fn stays(held: &[u64], e: Entry) -> bool
    requires { Small e }
    ensures { result ≡ line_of_finish held.now e }
{
    match e {
        Entry::Finish(p) => reads::size_at(held, 3 + 8 * p as usize) != 0,
        _ => false,
    }
}
