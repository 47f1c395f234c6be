// A command, by a look at what it reads alone or at the whole list.
ghost use Rattle.std.specs.Prelude.{◌≡◌};
ghost use Rattle.held_model.specs.Told.{order_named};
ghost use Rattle.moir_held_model.specs.Memory.{memory_of};
ghost use Rattle.moir_held_model.specs.Ranges.{near_refusal};
ghost use Rattle.moir_held_model.specs.HeldCommand.{Commanded, SteppedTo};

use crate::{obeying, replies};
use held_machine::replies::order_named;
use held_rows::reads::size_at;
use llsc::{Order, ProcessNumber};
use moir_held_model::Told;
use moir_held_rows::{table, whole};

// One that no row refuses.
fn obeyed(held: &mut [u64], p: usize, order: Order, value: &[u64]) -> Told
    requires { near_refusal (memory_of held.old) p order value.now ≡ 0 }
    ensures { SteppedTo held.old p order value.now result held.new }
{
    let n = size_at(held, 0);
    let w = size_at(held, 1);
    let reply = obeying::obey(held, p, order, value);
    replies::told(n, w, ProcessNumber(p as u8), reply)
}

fn near_command(held: &mut [u64], p: usize, order: Order, value: &[u64]) -> Told
    ensures { SteppedTo held.old p order value.now result held.new }
{
    match table::near_refusal(held, p, order, value) {
        Ok(()) => obeyed(held, p, order, value),
        Err(refusal) => replies::refused(refusal.number()),
    }
}

// Any command: row 9 is looked at over the whole list first.
fn whole_command(held: &mut [u64], p: usize, order: Order, value: &[u64]) -> Told
    ensures { Commanded held.old p order value.now result held.new }
{
    match whole::memory_refusal(held) {
        Ok(()) => near_command(held, p, order, value),
        Err(refusal) => replies::refused(refusal.number()),
    }
}

// A command to a process, with the number of an order (`held_machine::replies`) and an SC's words.
pub fn command(held: &mut [u64], process: usize, order: u8, value: &[u64]) -> Told
    ensures { Commanded held.old process (order_named order) value.now result held.new }
{
    whole_command(held, process, order_named(order), value)
}

// The same by a look at what the command reads alone: for a list that a set-up and commands left.
pub fn step(held: &mut [u64], process: usize, order: u8, value: &[u64]) -> Told
    ensures { SteppedTo held.old process (order_named order) value.now result held.new }
{
    near_command(held, process, order_named(order), value)
}
