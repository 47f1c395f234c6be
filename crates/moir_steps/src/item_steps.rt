// The steps that touch a segment or a word of A, and those that read or write an area of their process.
ghost use Rattle.std.specs.Prelude.{◌≡◌, ◌<◌};
ghost use Rattle.moir_model.specs.Machine.{step2, step4, step5, step6, step7, step17};
ghost use Rattle.moir_steps.specs.Ranges.{Standing};

use crate::before::Before;
use crate::items;
use crate::word_places::Row;
use llsc::ProcessNumber;
use moir_lines::copies::CopyOf;
use moir_lines::{on_array, on_header, on_segment, records};
use moir_model::{Bench, Header, Moved, Process};

// Lines 2 and 3.
// Kept: beside `step_6`: one function over both would take the line as a closure, and a clause for what it computes.
pub fn step_2(line4: u8, line7: u8, hdr: Header, before: &Before<'_>) -> Moved
    ensures { (result, before.now.words.now) ≡ step2 line4 line7 hdr before.now.bench.now before.now.process before.now.words.now }
{
    let next = on_segment::do_line_2(line4, line7, hdr, before.segment(), before.process);
    items::moved_on(*before.bench, next)
}

// Line 4.
pub fn step_4(line5: u8, hdr: Header, before: &Before<'_>) -> Moved
    requires { hdr.pid.0 < before.now.bench.now.n }
    ensures { (result, before.now.words.now) ≡ step4 line5 hdr before.now.bench.now before.now.process before.now.words.now }
{
    let word = before.word(Row::Announced(hdr.pid));
    let next = on_array::do_line_4(line5, hdr, word, before.process);
    items::moved_on(*before.bench, next)
}

// Line 5: the segment is what the CAS leaves there.
// Kept: one by one where a step writes: of a `&mut` in a struct each contract would say too that it is the caller's.
pub fn step_5(line6: u8, mut bench: Bench, process: Process, words: &mut [u64]) -> Moved
    requires { Standing bench process words.old }
    ensures { (result, words.new) ≡ step5 line6 bench process words.old }
{
    let k = process.word;
    let before = Before {
        bench: &bench,
        process,
        words,
    };
    let left = on_segment::do_line_5(before.segment(), process);
    words[Row::Segments.word(bench.n, bench.w, k)] = left.val;
    bench.tags[k] = left.tag;
    items::moved_on(bench, records::to(line6, process))
}

// Line 6.
// Kept: beside `step_2`, as there.
pub fn step_6(line7: u8, before: &Before<'_>) -> Moved
    ensures { (result, before.now.words.now) ≡ step6 line7 before.now.bench.now before.now.process before.now.words.now }
{
    let next = on_segment::do_line_6(line7, before.segment(), before.process);
    items::moved_on(*before.bench, next)
}

// Lines 7 to 9 in a WLL. Line 8: save[i] := y.val, where line 7 found the header as it was.
pub fn step_7(p: ProcessNumber, bench: Bench, process: Process, words: &mut [u64]) -> Moved
    requires { Standing bench process words.old × (p.0 < bench.n) }
    ensures { (result, words.new) ≡ step7 p bench process words.old }
{
    if on_header::saves_word(bench.header, process) {
        words[Row::Returned(p).word(bench.n, bench.w, process.word)] = process.y.val;
    }
    items::moved(
        bench,
        on_header::do_line_7(CopyOf::Wll, bench.w, bench.header, process),
    )
}

// Lines 16 to 18.
pub fn step_17(p: ProcessNumber, bench: Bench, process: Process, words: &mut [u64]) -> Moved
    requires { Standing bench process words.old × (p.0 < bench.n) }
    ensures { (result, words.new) ≡ step17 p bench process words.old }
{
    let k = process.word;
    let offered = words[Row::Offered(p).word(bench.n, bench.w, k)];
    words[Row::Announced(p).word(bench.n, bench.w, k)] = offered;
    items::moved_on(bench, on_array::do_line_17(bench.w, p, process))
}
