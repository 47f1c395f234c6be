// A command by a look at what it reads alone.
ghost use Rattle.std.specs.Prelude.{◌≡◌};
ghost use Rattle.held_model.specs.Memory.{memory_of};
ghost use Rattle.held_model.specs.Near.{near_refusal};
ghost use Rattle.held_model.specs.HeldCommand.{order_of, Commanded, SteppedTo};

use crate::{obeying, replies};
use held_model::Told;
use held_rows::{table, whole};
use llsc::{Order, ProcessNumber};

// One that no row refuses.
#[inline(always)]
pub fn obeyed(held: &mut [u64], p: usize, order: Order, named: usize, value: &[u64]) -> Told
    requires { near_refusal (memory_of held.old) (record { process = p; order = order; called = named; value = value.now }) ≡ 0 }
    ensures { SteppedTo held.old (record { process = p; order = order; called = named; value = value.now }) result held.new }
{
    let lent = table::sizes(held);
    let me = ProcessNumber(p as u8);
    let reply = obeying::obey(held, p, order, named, value);
    replies::told(lent, me, reply)
}

#[inline(always)]
fn near(held: &mut [u64], p: usize, order: Order, named: usize, value: &[u64]) -> Told
    ensures { SteppedTo held.old (record { process = p; order = order; called = named; value = value.now }) result held.new }
{
    match table::near_refusal(held, p, order, named, value) {
        Ok(()) => obeyed(held, p, order, named, value),
        Err(refusal) => replies::refused(refusal.number()),
    }
}

// A start: most commands are steps, so it is by itself.
#[inline(never)]
fn started(held: &mut [u64], p: usize, order: Order, named: usize, value: &[u64]) -> Told
    ensures { SteppedTo held.old (record { process = p; order = order; called = named; value = value.now }) result held.new }
{
    near(held, p, order, named, value)
}

// A step is compiled for that order alone, and so asks nothing that is asked of a start.
#[inline(always)]
pub fn near_command(held: &mut [u64], p: usize, order: Order, named: usize, value: &[u64]) -> Told
    ensures { SteppedTo held.old (record { process = p; order = order; called = named; value = value.now }) result held.new }
{
    match order {
        Order::Step => near(held, p, Order::Step, named, value),
        start => started(held, p, start, named, value),
    }
}

// Any command: row 9 is looked at over the whole list first.
pub fn whole_command(held: &mut [u64], p: usize, order: Order, named: usize, value: &[u64]) -> Told
    ensures { Commanded held.old (record { process = p; order = order; called = named; value = value.now }) result held.new }
{
    match whole::memory_refusal(held) {
        Ok(()) => near_command(held, p, order, named, value),
        Err(refusal) => replies::refused(refusal.number()),
    }
}

// A command to a process, with the number of an order (`replies`), the record that a start names, and an SC's words.
pub fn command(held: &mut [u64], process: usize, order: u8, on: usize, value: &[u64]) -> Told
    ensures { Commanded held.old (order_of process order on value.now) result held.new }
{
    whole_command(held, process, replies::order_named(order), on, value)
}

// The same by a look at what the command reads alone: for a list that a set-up and commands left.
#[inline(always)]
pub fn step(held: &mut [u64], process: usize, order: u8, on: usize, value: &[u64]) -> Told
    ensures { SteppedTo held.old (order_of process order on value.now) result held.new }
{
    near_command(held, process, replies::order_named(order), on, value)
}
