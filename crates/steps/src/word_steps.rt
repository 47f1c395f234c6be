// The steps that move half a word: into the return area of p, or into BUF[mybuf].
ghost use Rattle.std.specs.Prelude.{◌≡◌};
ghost use Rattle.model.specs.Points.{line18};
ghost use Rattle.model.specs.Sizes.{halves};
ghost use Rattle.model.specs.Words.{buffer_in, return_in, offer_in, word_of};
ghost use Rattle.model.specs.Lines.{do_word, do_word_then, do_line11};
ghost use Rattle.words.specs.Layouts.{layout_from};
ghost use Rattle.steps.specs.Layouts.{Moves};
ghost use Rattle.steps.specs.Steps.{read_word, written_word};

use lines::{on_words, points};
use llsc::ProcessNumber;
use llsc::counts::Width;
use model::{BufferNumber, Process, WordStep, sizes};
use words::layouts::FirstRows;
use words::word_places;

// Lines 3, 6 and 7's copy: a half word of BUF[from] into the return area of p. `line` follows the last half.
#[inline(always)]
pub fn read_word(
    rows: FirstRows,
    p: ProcessNumber,
    from: BufferNumber,
    line: u8,
    process: Process,
    words: &mut [u64],
) -> WordStep
    requires { Moves rows.w process (buffer_in (layout_from rows) rows.w from (word_of process.word)) (return_in (layout_from rows) rows.w p (word_of process.word)) words.old }
    ensures { (result, words.new) ≡ read_word (layout_from rows) rows.w p from (do_word_then (halves rows.w) line process) process words.old }
{
    let k = process.word;
    let source = rows.buffer_in(from, k / 2);
    let target = rows.return_in(p, k / 2);
    word_places::copy_half(words, k, source, target);
    on_words::do_word(sizes::halves(Width { w: rows.w }), line, process)
}

// Line 11: a half word of the return area into BUF[mybuf].
// Kept: a function for each area that is read or written; what is alike is `copy_half` and `halves`.
#[inline(always)]
pub fn step_11(rows: FirstRows, p: ProcessNumber, process: Process, words: &mut [u64]) -> WordStep
    requires { Moves rows.w process (return_in (layout_from rows) rows.w p (word_of process.word)) (buffer_in (layout_from rows) rows.w process.mybuf (word_of process.word)) words.old }
    ensures { (result, words.new) ≡ written_word (layout_from rows) rows.w (return_in (layout_from rows) rows.w p (word_of process.word)) (do_line11 (halves rows.w) process) process words.old }
{
    let k = process.word;
    let source = rows.return_in(p, k / 2);
    let target = rows.buffer_in(process.mybuf, k / 2);
    word_places::copy_half(words, k, source, target);
    on_words::do_line_11(sizes::halves(Width { w: rows.w }), process)
}

// Line 17: a half word of the offer area into BUF[mybuf].
#[inline(always)]
pub fn step_17(rows: FirstRows, p: ProcessNumber, process: Process, words: &mut [u64]) -> WordStep
    requires { Moves rows.w process (offer_in (layout_from rows) rows.w p (word_of process.word)) (buffer_in (layout_from rows) rows.w process.mybuf (word_of process.word)) words.old }
    ensures { (result, words.new) ≡ written_word (layout_from rows) rows.w (offer_in (layout_from rows) rows.w p (word_of process.word)) (do_word (halves rows.w) line18 process) process words.old }
{
    let k = process.word;
    let source = rows.offer_in(p, k / 2);
    let target = rows.buffer_in(process.mybuf, k / 2);
    word_places::copy_half(words, k, source, target);
    on_words::do_word(sizes::halves(Width { w: rows.w }), points::LINE_18, process)
}
