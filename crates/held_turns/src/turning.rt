// A turn: refused, passed, or the command that it gives.
ghost use Rattle.std.specs.Prelude.{◌≡◌, ◌≤◌, ◌<◌, length};
ghost use Rattle.llsc.specs.CallKinds.{start_of};
ghost use Rattle.turns_model.specs.Turns.{counts_as_idle};
ghost use Rattle.held_model.specs.HeldCommand.{Commanded};
ghost use Rattle.held_model.specs.Memory.{memory_of};
ghost use Rattle.held_rows.specs.WholeRows.{memory_number};
ghost use Rattle.held_turns.specs.TurnTold.{kind_named, next_named, TurnDone};

use crate::HeldTurn;
use held_machine::{replies, stepping};
use held_model::Told;
use held_rows::reads::size_at;
use held_rows::{layout, whole};
use llsc::{Order, ProcessNumber};

// The order that starts a call: 1 an LL, 2 an SC, every other number a VL.
// Kept: numbers, as C names a kind so.
fn start_named(kind: u8) -> Order
    ensures { result ≡ start_of (kind_named kind) }
{
    match kind {
        1 => Order::StartLl,
        2 => Order::StartSc,
        _ => Order::StartVl,
    }
}

// Whether process p has no open call; at N = 1 process 1 has none.
#[tactic(auto, using(crate::proofs::TurnLaws::idle_there))]
fn counts_as_idle(held: &[u64], p: usize) -> bool
    requires { (p ≤ 1) × (131 ≤ length held.now) }
    ensures { result ≡ counts_as_idle (memory_of held.now) p }
{
    size_at(held, 0) <= p || held[layout::call_place(ProcessNumber(p as u8))] == 0
}

// What a turn of process p, 0 or 1, comes to, where the list is in order.
fn given(held: &mut [u64], p: usize, kind: u8, on: usize, left: usize, value: &[u64]) -> HeldTurn
    requires { (p ≤ 1) × (memory_number held.old ≡ 0) }
    ensures { TurnDone held.old p (next_named kind on) value.now left result held.new }
{
    if !counts_as_idle(held, p) {
        let told = stepping::near_command(held, p, Order::Step, 0, &[]);
        return HeldTurn {
            told,
            passed: false,
            left,
        };
    }
    if left == 0 {
        return HeldTurn {
            told: replies::refused(0),
            passed: true,
            left: 0,
        };
    }
    let told = stepping::near_command(held, p, start_named(kind), on, value);
    HeldTurn {
        told,
        passed: false,
        left: left - 1,
    }
}

// Process p, any number, has its turn. `left` is how many calls are on its list; the first of them has this kind, names
// the record `on` and brings the words of `value`. Where the list is empty none of these is looked at.
pub fn turn(held: &mut [u64], p: usize, kind: u8, on: usize, left: usize, value: &[u64]) -> HeldTurn
    ensures { TurnDone held.old p (next_named kind on) value.now left result held.new }
{
    if p > 1 {
        return HeldTurn {
            told: replies::refused(22),
            passed: false,
            left,
        };
    }
    match whole::memory_refusal(held) {
        Ok(()) => given(held, p, kind, on, left, value),
        Err(refusal) => HeldTurn {
            told: replies::refused(refusal.number()),
            passed: false,
            left,
        },
    }
}
