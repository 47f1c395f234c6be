// Moir's bench that a caller holds as one list of numbers, for C: where each of them stands,
// `moir_held_model/specs/Layout`.
// Kept: number by number, as the C library's header declares them.
ghost use Rattle.held_model.specs.Told.{order_named};
ghost use Rattle.moir_held_model.specs.HeldCommand.{SetUpDone, Commanded, SteppedTo};

use moir_held_machine::{setting, stepping};
use moir_held_model::Told;

// A set-up for n processes and w words with the given value: the number of its refusal, 0 for none.
pub fn besklaun_moir_set_up(held: &mut [u64], n: usize, w: usize, value: &[u64]) -> u8
    ensures { SetUpDone held.old n w value.now result held.new }
{
    setting::set_up(held, n, w, value)
}

// A command to a process: an order by its number, an SC's words. The start of an LL is one of a WLL.
// Wrong programs that this rules out: one that takes a tag modulo 65,536; one that refuses and has written.
pub fn besklaun_moir_command(held: &mut [u64], process: usize, order: u8, value: &[u64]) -> Told
    ensures { Commanded held.old process (order_named order) value.now result held.new }
{
    stepping::command(held, process, order, value)
}

// The same by a look at what the command reads alone.
pub fn besklaun_moir_step(held: &mut [u64], process: usize, order: u8, value: &[u64]) -> Told
    ensures { SteppedTo held.old process (order_named order) value.now result held.new }
{
    stepping::step(held, process, order, value)
}
