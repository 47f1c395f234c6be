// Text runs for C, on a bench of their own.
ghost use Rattle.std.specs.Prelude.{◌≡◌, true, false};
ghost use Rattle.besklaun.specs.OwnBench.{all_words, few_words, text_run};
ghost use Rattle.besklaun.specs.TextReports.{stop_of, ReportedOn, Reported};

use positions::StopReport;
use text_entry::state::Held;
pub use text_runs::returned::TextRun;

// Where a run stopped: `kind` is 0 where it did not look at the text, 1 at a place where the text is not right, 2 at no item
// of a right text, its first line or its end, and 3 at the item whose entry was refused. 0 where a number means nothing.
// Kept: no enum crosses to C.
#[repr(C)]
#[derive(Clone, Copy, Default)]
pub struct TextStop {
    pub kind: u8,
    pub place: usize,
    pub n: u64,
    pub w: u64,
    pub process: u64,
}

impl From<StopReport> for TextStop {
    ghost from_gives = { λ report stop. stop ≡ stop_of report };

    fn from(report: StopReport) -> TextStop {
        match report {
            StopReport::NotRead => TextStop::default(),
            StopReport::AtFault(place) => TextStop {
                kind: 1,
                place,
                ..TextStop::default()
            },
            StopReport::AtNoItem(sizes) => TextStop {
                kind: 2,
                n: sizes.n,
                w: sizes.w,
                ..TextStop::default()
            },
            StopReport::AtItem(sizes, item) => TextStop {
                kind: 3,
                place: item.place,
                n: sizes.n,
                w: sizes.w,
                process: item.process,
            },
        }
    }
}

// A text run and its stop.
#[repr(C)]
#[derive(Clone, Copy)]
pub struct ReportedRun {
    pub run: TextRun,
    pub stop: TextStop,
}

// A run on a bench with these words, of its listing or, where `traced`, of its trace.
#[tactic(auto, using(text_machine::proofs::RecordLaws::fillers))]
fn run_on(traced: bool, words: &mut [u64], text: &[u8], into: &mut [u8]) -> ReportedRun
    ensures { ReportedOn words.old traced text.now into.old result into.new }
{
    let held = Held::empty();
    let out = text_machine::text_run::run_by_value(held, 16, traced, words, text, into);
    let run = TextRun::from(out);
    let stop = TextStop::from(out.report);
    ReportedRun { run, stop }
}

// On as many words as any text needs.
// Kept: never inlined, as the other: a run on few words has no room of this size to blank.
#[inline(never)]
fn run_on_all(traced: bool, text: &[u8], into: &mut [u8]) -> ReportedRun
    ensures { ReportedOn all_words traced text.now into.old result into.new }
{
    let mut words = [0; 5120];
    run_on(traced, &mut words, text, into)
}

// On as many as a text of at most eight words needs.
#[inline(never)]
fn run_on_few(traced: bool, text: &[u8], into: &mut [u8]) -> ReportedRun
    ensures { ReportedOn few_words traced text.now into.old result into.new }
{
    let mut words = [0; 640];
    run_on(traced, &mut words, text, into)
}

// A run on a bench of its own, with the words that its text needs.
#[tactic(auto, using(crate::proofs::OwnBenchLaws::word_laws))]
fn own_run(traced: bool, text: &[u8], into: &mut [u8]) -> ReportedRun
    ensures { Reported traced text.now into.old result into.new }
{
    match notation::first_line(text) {
        Ok(first) => {
            if first.w <= 8 {
                run_on_few(traced, text, into)
            } else {
                run_on_all(traced, text, into)
            }
        }
        Err(_) => run_on_few(traced, text, into),
    }
}

// A whole text run, whose listing goes to the bytes lent.
// Wrong programs that this rules out: one that blanks the bytes after the last line; one whose bench has too few words
// for the text's processes and words, so that it refuses with 3.
pub fn besklaun_run_text(text: &[u8], listing: &mut [u8]) -> TextRun
    ensures { (result, listing.new) ≡ text_run false text.now listing.old }
{
    own_run(false, text, listing).run
}

// The same run, with the trace in place of the listing.
pub fn besklaun_trace_text(text: &[u8], trace: &mut [u8]) -> TextRun
    ensures { (result, trace.new) ≡ text_run true text.now trace.old }
{
    own_run(true, text, trace).run
}

// The two with the report of the stop.
// Wrong programs that this rules out: one that reports the place after the fault, or the item after the one refused.
pub fn besklaun_run_text_with_report(text: &[u8], listing: &mut [u8]) -> ReportedRun
    ensures { Reported false text.now listing.old result listing.new }
{
    own_run(false, text, listing)
}

pub fn besklaun_trace_text_with_report(text: &[u8], trace: &mut [u8]) -> ReportedRun
    ensures { Reported true text.now trace.old result trace.new }
{
    own_run(true, text, trace)
}
