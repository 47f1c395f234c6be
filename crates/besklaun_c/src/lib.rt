// The static library `besklaun`, for programs in C and Rust: each function of the crate `besklaun`, with its clauses. To C
// a slice is a pointer and a count; `library/besklaun.h` declares each function that is exported here.
// None of these functions asks anything of its caller.

#![tactic(auto)]

ghost use Rattle.std.specs.Prelude.{◌≡◌, true, false};
ghost use Rattle.boards.specs.Merging.{merge_files};
ghost use Rattle.held_model.specs.HeldCommand.{SetUpDone, order_of, Commanded, SteppedTo};
ghost use Rattle.held_buffers.specs.Places.{HoldersTold};
ghost use Rattle.held_turns.specs.TurnTold.{next_named, TurnDone};
ghost use Rattle.held_boards.specs.FileDone.{FileDone};
ghost use Rattle.held_model.specs.Told.{order_named};
ghost use Rattle.moir_held_model.specs.HeldCommand.{SetUpDone as MoirSetUpDone, Commanded as MoirCommanded, SteppedTo as MoirSteppedTo};
ghost use Rattle.verdicts.specs.Verdicts.{judged};
ghost use Rattle.verdicts.specs.Reasons.{judged_with_reason};
ghost use Rattle.enumeration.specs.Replies.{found_for, numbered_for, following_for};
ghost use Rattle.besklaun.specs.BoardRuns.{board_run};
ghost use Rattle.besklaun.specs.Explained.{Explained};
ghost use Rattle.besklaun.specs.HeldTexts.{StateTold};
ghost use Rattle.besklaun.specs.Judgements.{judgement_of, reasoned_of};
ghost use Rattle.besklaun.specs.MarkedTraces.{mark_told};
ghost use Rattle.besklaun.specs.MoirTexts.{moir_text_run, MoirReported};
ghost use Rattle.besklaun.specs.OwnBench.{text_run};
ghost use Rattle.besklaun.specs.Seasons.{adding, fractions_of};
ghost use Rattle.besklaun.specs.TextReports.{Reported};
ghost use Rattle.besklaun.specs.TurnBytes.{schedule_into, number_told, after_into};
ghost use Rattle.besklaun.specs.Version.{version_number};
ghost use Rattle.besklaun.specs.Views.{view_told};
ghost use Rattle.sums.specs.Season.{empty_sums};
ghost use Rattle.sums.specs.Fractions.{table};

use besklaun::board_files::BoardRun;
use besklaun::explained::ExplainedRun;
use besklaun::held_lists::HeldRun;
use besklaun::logs::{Judgement, Reasoned};
use besklaun::schedules::{FoundTurns, TurnsAfter, TurnsNumber};
use besklaun::seasons::{Added, Fractions};
use besklaun::texts::{ReportedRun, TextRun};
use besklaun::views::View;
use besklaun::{
    board_files, explained, held_lists, logs, marks, moir_lists, moir_texts, schedules, seasons,
    texts, versions, views,
};
use board_commands::FileRun;
use boards::Merged;
use held_model::Told;
use held_turns::HeldTurn;
use moir_held_model::Told as MoirTold;
use sums::Sums;

#[unsafe(no_mangle)]
pub extern "C" fn besklaun_version() -> u32
    ensures { result ≡ version_number }
{
    versions::besklaun_version()
}

// The judge (02, CR 1).

#[unsafe(no_mangle)]
pub extern "C" fn besklaun_judge(n: usize, w: usize, value: &[u64], log: &[u64]) -> Judgement
    ensures { result ≡ judgement_of (judged n w value.now log.now) }
{
    logs::besklaun_judge(n, w, value, log)
}

#[unsafe(no_mangle)]
pub extern "C" fn besklaun_judge_with_reason(
    n: usize,
    w: usize,
    value: &[u64],
    log: &[u64],
) -> Reasoned
    ensures { result ≡ reasoned_of (judged_with_reason n w value.now log.now) }
{
    logs::besklaun_judge_with_reason(n, w, value, log)
}

// Text runs, on a bench of their own.

#[unsafe(no_mangle)]
pub extern "C" fn besklaun_run_text(text: &[u8], listing: &mut [u8]) -> TextRun
    ensures { (result, listing.new) ≡ text_run false text.now listing.old }
{
    texts::besklaun_run_text(text, listing)
}

#[unsafe(no_mangle)]
pub extern "C" fn besklaun_trace_text(text: &[u8], trace: &mut [u8]) -> TextRun
    ensures { (result, trace.new) ≡ text_run true text.now trace.old }
{
    texts::besklaun_trace_text(text, trace)
}

#[unsafe(no_mangle)]
pub extern "C" fn besklaun_run_text_with_report(text: &[u8], listing: &mut [u8]) -> ReportedRun
    ensures { Reported false text.now listing.old result listing.new }
{
    texts::besklaun_run_text_with_report(text, listing)
}

#[unsafe(no_mangle)]
pub extern "C" fn besklaun_trace_text_with_report(text: &[u8], trace: &mut [u8]) -> ReportedRun
    ensures { Reported true text.now trace.old result trace.new }
{
    texts::besklaun_trace_text_with_report(text, trace)
}

#[unsafe(no_mangle)]
pub extern "C" fn besklaun_explain_text(
    text: &[u8],
    listing: &mut [u8],
    words: &mut [u8],
) -> ExplainedRun
    ensures { Explained false text.now listing.old words.old result listing.new words.new }
{
    explained::besklaun_explain_text(text, listing, words)
}

#[unsafe(no_mangle)]
pub extern "C" fn besklaun_explain_trace(
    text: &[u8],
    trace: &mut [u8],
    words: &mut [u8],
) -> ExplainedRun
    ensures { Explained true text.now trace.old words.old result trace.new words.new }
{
    explained::besklaun_explain_trace(text, trace, words)
}

// The same on Moir's bench.

#[unsafe(no_mangle)]
pub extern "C" fn besklaun_moir_run_text(text: &[u8], listing: &mut [u8]) -> TextRun
    ensures { (result, listing.new) ≡ moir_text_run false text.now listing.old }
{
    moir_texts::besklaun_moir_run_text(text, listing)
}

#[unsafe(no_mangle)]
pub extern "C" fn besklaun_moir_trace_text(text: &[u8], trace: &mut [u8]) -> TextRun
    ensures { (result, trace.new) ≡ moir_text_run true text.now trace.old }
{
    moir_texts::besklaun_moir_trace_text(text, trace)
}

#[unsafe(no_mangle)]
pub extern "C" fn besklaun_moir_run_text_with_report(text: &[u8], listing: &mut [u8]) -> ReportedRun
    ensures { MoirReported false text.now listing.old result listing.new }
{
    moir_texts::besklaun_moir_run_text_with_report(text, listing)
}

#[unsafe(no_mangle)]
pub extern "C" fn besklaun_moir_trace_text_with_report(text: &[u8], trace: &mut [u8]) -> ReportedRun
    ensures { MoirReported true text.now trace.old result trace.new }
{
    moir_texts::besklaun_moir_trace_text_with_report(text, trace)
}

// The marks of a trace (02, CR 13).

#[unsafe(no_mangle)]
pub extern "C" fn besklaun_mark_trace(trace: &[u8], marked: &mut [u8]) -> usize
    ensures { (result, marked.new) ≡ mark_told trace.now marked.old }
{
    marks::besklaun_mark_trace(trace, marked)
}

// The view of a written value.

#[unsafe(no_mangle)]
pub extern "C" fn besklaun_view(w: usize, value: &[u64], written: &[u64], k: usize) -> View
    ensures { result ≡ view_told w value.now written.now k }
{
    views::besklaun_view(w, value, written, k)
}

// A season of listings (02, CR 2).

#[unsafe(no_mangle)]
pub extern "C" fn besklaun_empty_sums(n: u64, w: u64) -> Sums
    ensures { result ≡ empty_sums n w }
{
    seasons::besklaun_empty_sums(n, w)
}

#[unsafe(no_mangle)]
pub extern "C" fn besklaun_add_listing(season: &mut Sums, listing: &[u8]) -> Added
    ensures { (result, season.new) ≡ adding season.old listing.now }
{
    seasons::besklaun_add_listing(season, listing)
}

#[unsafe(no_mangle)]
pub extern "C" fn besklaun_fractions(season: &Sums) -> Fractions
    ensures { result ≡ fractions_of (table season.now) }
{
    seasons::besklaun_fractions(season)
}

// Small schedules (02, CR 5): to C a schedule is the bytes of its turns.

#[unsafe(no_mangle)]
pub extern "C" fn besklaun_schedule_for(
    a: usize,
    b: usize,
    number: u64,
    turns: &mut [u8],
) -> FoundTurns
    ensures { (result, turns.new) ≡ schedule_into (found_for a b number) turns.old }
{
    schedules::besklaun_schedule_for(a, b, number, turns)
}

#[unsafe(no_mangle)]
pub extern "C" fn besklaun_number_for(a: usize, b: usize, turns: &[u8]) -> TurnsNumber
    ensures { result ≡ number_told (numbered_for a b turns.now) }
{
    schedules::besklaun_number_for(a, b, turns)
}

#[unsafe(no_mangle)]
pub extern "C" fn besklaun_schedule_after(a: usize, b: usize, turns: &mut [u8]) -> TurnsAfter
    ensures { (result, turns.new) ≡ after_into (following_for a b turns.old) turns.old }
{
    schedules::besklaun_schedule_after(a, b, turns)
}

// Board traces (02, CR 12).

#[unsafe(no_mangle)]
pub extern "C" fn besklaun_merge(first: &[u8], second: &[u8], out: &mut [u8]) -> Merged
    ensures { (result, out.new) ≡ merge_files first.now second.now out.old }
{
    board_files::besklaun_merge(first, second, out)
}

#[unsafe(no_mangle)]
pub extern "C" fn besklaun_run_board(
    n: usize,
    w: usize,
    initial: u32,
    file: &[u8],
    listing: &mut [u8],
) -> BoardRun
    ensures { (result, listing.new) ≡ board_run n w initial file.now listing.old }
{
    board_files::besklaun_run_board(n, w, initial, file, listing)
}

// A station that a caller holds as one list of numbers.

#[unsafe(no_mangle)]
pub extern "C" fn besklaun_held_set_up(
    held: &mut [u64],
    n: usize,
    w: usize,
    r: usize,
    value: &[u64],
) -> u8
    ensures { SetUpDone held.old n w r value.now result held.new }
{
    held_lists::besklaun_held_set_up(held, n, w, r, value)
}

#[unsafe(no_mangle)]
pub extern "C" fn besklaun_held_command(
    held: &mut [u64],
    process: usize,
    order: u8,
    on: usize,
    value: &[u64],
) -> Told
    ensures { Commanded held.old (order_of process order on value.now) result held.new }
{
    held_lists::besklaun_held_command(held, process, order, on, value)
}

#[unsafe(no_mangle)]
pub extern "C" fn besklaun_held_step(
    held: &mut [u64],
    process: usize,
    order: u8,
    on: usize,
    value: &[u64],
) -> Told
    ensures { SteppedTo held.old (order_of process order on value.now) result held.new }
{
    held_lists::besklaun_held_step(held, process, order, on, value)
}

#[unsafe(no_mangle)]
pub extern "C" fn besklaun_held_places(held: &[u64], on: usize, places: &mut [u64]) -> u8
    ensures { HoldersTold held.now on places.old result places.new }
{
    held_lists::besklaun_held_places(held, on, places)
}

#[unsafe(no_mangle)]
pub extern "C" fn besklaun_turn(
    held: &mut [u64],
    process: usize,
    kind: u8,
    on: usize,
    left: usize,
    value: &[u64],
) -> HeldTurn
    ensures { TurnDone held.old process (next_named kind on) value.now left result held.new }
{
    held_lists::besklaun_turn(held, process, kind, on, left, value)
}

#[unsafe(no_mangle)]
pub extern "C" fn besklaun_held_text(held: &mut [u64], text: &[u8], entries: usize) -> HeldRun
    ensures { StateTold held.old text.now entries result held.new }
{
    held_lists::besklaun_held_text(held, text, entries)
}

#[unsafe(no_mangle)]
pub extern "C" fn besklaun_held_run_board(held: &mut [u64], file: &[u8]) -> FileRun
    ensures { FileDone held.old file.now result held.new }
{
    held_lists::besklaun_held_run_board(held, file)
}

// Moir's bench that a caller holds as one list of numbers.

#[unsafe(no_mangle)]
pub extern "C" fn besklaun_moir_set_up(held: &mut [u64], n: usize, w: usize, value: &[u64]) -> u8
    ensures { MoirSetUpDone held.old n w value.now result held.new }
{
    moir_lists::besklaun_moir_set_up(held, n, w, value)
}

#[unsafe(no_mangle)]
pub extern "C" fn besklaun_moir_command(
    held: &mut [u64],
    process: usize,
    order: u8,
    value: &[u64],
) -> MoirTold
    ensures { MoirCommanded held.old process (order_named order) value.now result held.new }
{
    moir_lists::besklaun_moir_command(held, process, order, value)
}

#[unsafe(no_mangle)]
pub extern "C" fn besklaun_moir_step(
    held: &mut [u64],
    process: usize,
    order: u8,
    value: &[u64],
) -> MoirTold
    ensures { MoirSteppedTo held.old process (order_named order) value.now result held.new }
{
    moir_lists::besklaun_moir_step(held, process, order, value)
}
