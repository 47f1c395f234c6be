// A station that a caller holds as one list of numbers, for C: where each of them stands, `held_model/specs/Layout`.
// Kept: number by number, as the C library's header declares them.
ghost use Rattle.held_model.specs.HeldCommand.{SetUpDone, order_of, Commanded, SteppedTo};
ghost use Rattle.held_buffers.specs.Places.{HoldersTold};
ghost use Rattle.held_turns.specs.TurnTold.{next_named, TurnDone};
ghost use Rattle.besklaun.specs.HeldTexts.{StateTold};
ghost use Rattle.held_boards.specs.FileDone.{FileDone};

use crate::texts::TextStop;
use board_commands::FileRun;
use held_model::Told;
use held_texts::states;
use held_turns::HeldTurn;
use llsc::refusals;

// A set-up for n processes, w words and r records with the given value: the number of its refusal, 0 for none.
pub fn besklaun_held_set_up(held: &mut [u64], n: usize, w: usize, r: usize, value: &[u64]) -> u8
    ensures { SetUpDone held.old n w r value.now result held.new }
{
    held_setup::setting::set_up(held, n, w, r, value)
}

// A command to a process: an order by its number, the record that a start names, an SC's words.
// Wrong programs that this rules out: one that takes a number modulo what its field holds; one that refuses and has
// written.
pub fn besklaun_held_command(
    held: &mut [u64],
    process: usize,
    order: u8,
    on: usize,
    value: &[u64],
) -> Told
    ensures { Commanded held.old (order_of process order on value.now) result held.new }
{
    held_machine::stepping::command(held, process, order, on, value)
}

// The same by a look at what the command reads alone.
pub fn besklaun_held_step(
    held: &mut [u64],
    process: usize,
    order: u8,
    on: usize,
    value: &[u64],
) -> Told
    ensures { SteppedTo held.old (order_of process order on value.now) result held.new }
{
    held_machine::stepping::step(held, process, order, on, value)
}

// Where each buffer of a record is: the number of the refusal, 0 for none.
pub fn besklaun_held_places(held: &[u64], on: usize, places: &mut [u64]) -> u8
    ensures { HoldersTold held.now on places.old result places.new }
{
    held_buffers::telling::tell(held, on, places)
}

// A turn of process 0 or 1 (02, CR 5): so many calls are left on its list, the first of this kind.
pub fn besklaun_turn(
    held: &mut [u64],
    process: usize,
    kind: u8,
    on: usize,
    left: usize,
    value: &[u64],
) -> HeldTurn
    ensures { TurnDone held.old process (next_named kind on) value.now left result held.new }
{
    held_turns::turning::turn(held, process, kind, on, left, value)
}

// What a text's run on a held list tells: its number, the entries done, and where it stopped.
// Kept: no enum crosses to C.
#[repr(C)]
#[derive(Clone, Copy)]
pub struct HeldRun {
    pub number: u8,
    pub entries: usize,
    pub stop: TextStop,
}

// The list is set up for a text's N and W and one record, and the first `entries` of its entries are carried out: one more
// is refused with 12, and the stop is then at its item.
// Wrong programs that this rules out: one whose state is an entry late.
#[tactic(auto, using(crate::proofs::HeldTextLaws::state_told))]
pub fn besklaun_held_text(held: &mut [u64], text: &[u8], entries: usize) -> HeldRun
    ensures { StateTold held.old text.now entries result held.new }
{
    let out = states::after_text(text, entries, held);
    HeldRun {
        number: refusals::number_of(out.outcome),
        entries: out.entries,
        stop: TextStop::from(out.report),
    }
}

// A board's trace file (02, CR 12) run on record 0 of it, whatever stands in it and in the file.
// Wrong programs that this rules out: one that sets the station up first; one that counts a refused command as done.
pub fn besklaun_held_run_board(held: &mut [u64], file: &[u8]) -> FileRun
    ensures { FileDone held.old file.now result held.new }
{
    held_boards::running::run_file(held, file)
}
