// How a text run begins, goes on and ends, by value, over what a bench holds.
ghost use Rattle.std.specs.Prelude.{◌≡◌, ◌≤◌, false, length, Err};
ghost use Rattle.llsc.specs.declared.refusals.Refusal.TheVariants.{NoRoom};
ghost use Rattle.llsc.specs.Refusals.{refusal_number};
ghost use Rattle.positions.specs.declared.StopReport.TheVariants.{NotRead};
ghost use Rattle.text_runs.specs.Runs.{closed, closed_at, finished_of, fresh_run, Closable};
ghost use Rattle.text_runs.specs.TextRun.{room_needed};

use crate::last_lines;
use listing::Writer;
use llsc::refusals::Refusal;
use positions::StopReport;
use std::alloc::AllocError;

// A run in progress: what its bench holds, the entries done, and whether it writes a trace. Its lines go to a writer.
// Kept: `traced` is what the user asked for, and no field hangs on it.
#[derive(Copy)]
pub struct Run<H> {
    pub held: H,
    pub entries: usize,
    pub traced: bool,
}

// Kept: by hand, here and below, as a derived clone asks its fields one by one, with a way out at each.
impl<H: Copy> Clone for Run<H> {
    ghost is_clone = { λ x y. y ≡ x };

    fn clone(&self) -> Result<Run<H>, AllocError> {
        Ok(*self)
    }
}

impl<H: Copy> Run<H> {
    // A run before its first entry, or one that a refusal keeps from it.
    pub fn fresh(held: H, traced: bool) -> Run<H>
        ensures { result ≡ fresh_run held traced }
    {
        Run {
            held,
            entries: 0,
            traced,
        }
    }
}

// The run after its list, its place in it, that of the entry that was refused, or the end; and why it was refused.
// Kept: `at` beside `outcome`: it is a place at the end too, as `Over` says (`stop_index`).
#[derive(Copy)]
pub struct Carried<H> {
    pub run: Run<H>,
    pub at: usize,
    pub outcome: Result<(), Refusal>,
}

impl<H: Copy> Clone for Carried<H> {
    ghost is_clone = { λ x y. y ≡ x };

    fn clone(&self) -> Result<Carried<H>, AllocError> {
        Ok(*self)
    }
}

// What a text run leaves of what it held, and what it returns: why it was refused, if it was, the entries done, the bytes
// written, and where it stopped.
#[derive(Copy)]
pub struct Finished<H> {
    pub held: H,
    pub outcome: Result<(), Refusal>,
    pub entries: usize,
    pub written: usize,
    pub report: StopReport,
}

impl<H: Copy> Clone for Finished<H> {
    ghost is_clone = { λ x y. y ≡ x };

    fn clone(&self) -> Result<Finished<H>, AllocError> {
        Ok(*self)
    }
}

impl<H: Copy> Finished<H> {
    // "A refusal 14 at the start writes nothing."
    pub fn unwritten(held: H) -> Finished<H>
        ensures { result ≡ finished_of held 0 (Err NoRoom) NotRead 0 }
    {
        Finished {
            held,
            outcome: Err(Refusal::NoRoom),
            entries: 0,
            written: 0,
            report: StopReport::NotRead,
        }
    }
}

// A run with its last line.
#[tactic(auto, using(crate::proofs::LastLaws::closable_room))]
pub fn ended<H: Copy>(
    held: H,
    entries: usize,
    outcome: Result<(), Refusal>,
    report: StopReport,
    to: &mut Writer<'_>,
) -> Finished<H>
    requires { Closable entries outcome to.old }
    ensures is { (result, to.new.list.now) ≡ closed held entries outcome report to.old }
    ensures same_list { to.new.list.ghost_name ≡ to.old.list.ghost_name }
{
    last_lines::write(outcome, entries, to);
    Finished {
        held,
        outcome,
        entries,
        written: to.written,
        report,
    }
}

// A run that is refused before its set-up: its last line alone.
pub fn refused<H: Copy>(held: H, cause: Refusal, report: StopReport, list: &mut [u8]) -> Finished<H>
    requires { (refusal_number cause ≤ 15) × (room_needed false ≤ length list.old) }
    ensures { (result, list.new) ≡ closed_at held 0 (Err cause) report list.old 0 }
{
    let mut to = Writer { list, written: 0 };
    ended(held, 0, Err(cause), report, &mut to)
}
