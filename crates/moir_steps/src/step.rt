// One step of a process, by its line.
ghost use Rattle.std.specs.Prelude.{◌≡◌, ◌<◌};
ghost use Rattle.moir_model.specs.Points.{point_of};
ghost use Rattle.moir_model.specs.Machine.{step_at};
ghost use Rattle.moir_steps.specs.Items.{moved19};
ghost use Rattle.moir_steps.specs.Ranges.{Ready};

use crate::before::Before;
use crate::{item_steps, items};
use llsc::ProcessNumber;
use moir_lines::copies::CopyOf;
use moir_lines::{on_header, points};
use moir_model::{Bench, Moved, Process};

// Line 19: the header is what the CAS leaves there.
fn step_19(bench: Bench, process: Process) -> Moved
    requires { process.count < 4294967296 }
    ensures { result ≡ moved19 bench process }
{
    let header = on_header::cas_header(bench.header, process);
    let next = on_header::do_line_19(bench.header, process);
    items::moved(Bench { header, ..bench }, next)
}

// An idle process, and a line that is none (row 9 refuses it), stay as they are.
// Kept: an arm for each point, as the lines take a header, a segment, a word or the words, and some are in two Copies.
#[tactic(auto, unfolding(moir_model::specs::Machine::step_at))]
pub fn step(p: ProcessNumber, bench: Bench, process: Process, words: &mut [u64]) -> Moved
    requires { Ready bench process p words.old }
    ensures { (result, words.new) ≡ step_at (point_of process.line) p bench process words.old }
{
    let line = process.line;
    let header = bench.header;
    let before = Before {
        bench: &bench,
        process,
        words,
    };
    let (wll, sc) = (CopyOf::Wll, CopyOf::Sc);
    match line {
        points::WLL_10 => items::moved_on(bench, on_header::do_line_10(header, process)),
        points::WLL_2 => item_steps::step_2(wll.line(4), wll.line(7), wll.header(process), &before),
        points::WLL_4 => item_steps::step_4(wll.line(5), wll.header(process), &before),
        points::WLL_5 => item_steps::step_5(wll.line(6), bench, process, words),
        points::WLL_6 => item_steps::step_6(wll.line(7), &before),
        points::WLL_7 => item_steps::step_7(p, bench, process, words),
        points::SC_14 => items::moved(bench, on_header::do_line_14(header, process)),
        points::SC_17 => item_steps::step_17(p, bench, process, words),
        points::SC_19 => step_19(bench, process),
        points::SC_2 => item_steps::step_2(sc.line(4), sc.line(7), sc.header(process), &before),
        points::SC_4 => item_steps::step_4(sc.line(5), sc.header(process), &before),
        points::SC_5 => item_steps::step_5(sc.line(6), bench, process, words),
        points::SC_6 => item_steps::step_6(sc.line(7), &before),
        points::SC_7 => items::moved(bench, on_header::do_line_7(sc, bench.w, header, process)),
        points::VL_13 => items::moved(bench, on_header::do_line_13(header, process)),
        _ => items::moved_on(bench, process),
    }
}
