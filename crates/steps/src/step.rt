// One step of a process, by its line.
ghost use Rattle.std.specs.Prelude.{◌≡◌};
ghost use Rattle.model.specs.Points.{point_of};
ghost use Rattle.words.specs.Layouts.{layout_from};
ghost use Rattle.steps.specs.Layouts.{ReadyIn};
ghost use Rattle.steps.specs.Steps.{step_on_in};

use crate::word_steps;
use crate::word_steps::read_word;
use lines::points::*;
use lines::{on_bank, on_help, on_x};
use llsc::ProcessNumber;
use model::Process;
use taken::{Stepped, Taken, after_bank, after_help, after_word, after_x};
use words::layouts::FirstRows;

// An idle process, and a line that is none (row 9 refuses it), stay as they are.
#[inline(always)]
#[tactic(auto, unfolding(crate::specs::Steps::step_on_in), using(crate::proofs::LayoutLaws::reads, crate::proofs::LayoutLaws::writes_back, crate::proofs::LayoutLaws::writes_offer))]
pub fn on_taken(
    rows: FirstRows,
    n: usize,
    p: ProcessNumber,
    process: Process,
    taken: Taken,
    words: &mut [u64],
) -> Stepped
    requires { ReadyIn rows n process p words.old }
    ensures { (result, words.new) ≡ step_on_in (layout_from rows) (point_of process.line) p n rows.w taken process words.old }
{
    let from = process.x.buf;
    // Kept: an arm for each point of Figure 2, as each names its line and the place or the words that it touches.
    match process.line {
        LINE_1 => after_help(taken, on_help::do_line_1(taken.help, process)),
        LINE_2 => after_x(taken, on_x::do_line_2(LINE_3, p, taken.x, process)),
        LINE_3 => after_word(taken, read_word(rows, p, from, LINE_4, process, words)),
        LINE_4 => after_help(taken, on_help::do_line_4(p, taken.help, process)),
        LINE_5 => after_x(taken, on_x::do_line_2(LINE_6, p, taken.x, process)),
        LINE_6 => after_word(taken, read_word(rows, p, from, LINE_7, process, words)),
        LINE_7 => after_x(taken, on_x::do_line_7(p, taken.x, process)),
        LINE_7_COPY => after_word(taken, read_word(rows, p, process.b, LINE_8, process, words)),
        LINE_8 => after_help(taken, on_help::do_line_8(p, taken.help, process)),
        LINE_9 => after_help(taken, on_help::do_line_9(p, taken.help, process)),
        LINE_10 => after_help(taken, on_help::do_line_10(taken.help, process)),
        LINE_11 => after_word(taken, word_steps::step_11(rows, p, process, words)),
        LINE_12 => after_bank(taken, on_bank::do_line_12(p, taken.bank, process)),
        LINE_12_VALID => after_x(taken, on_x::do_line_12_valid(p, taken.x, process)),
        LINE_13 => after_bank(taken, on_bank::do_line_13(p, taken.bank, process)),
        LINE_14 => after_help(taken, on_help::do_line_14(p, taken.help, process)),
        LINE_14_VALID => after_x(taken, on_x::do_line_14_valid(p, taken.x, process)),
        LINE_15 => after_help(taken, on_help::do_line_15(p, taken.help, process)),
        LINE_17 => after_word(taken, word_steps::step_17(rows, p, process, words)),
        LINE_18 => after_bank(taken, on_bank::do_line_18(taken.bank, process)),
        LINE_19 => after_x(taken, on_x::do_line_19(n, p, taken.x, process)),
        LINE_23 => after_x(taken, on_x::do_line_23(p, taken.x, process)),
        _ => Stepped::accepted(taken, process),
    }
}
