// Text runs on Moir's bench for C.
ghost use Rattle.std.specs.Prelude.{◌≡◌, true, false};
ghost use Rattle.besklaun.specs.MoirTexts.{moir_text_run, MoirReported};

use crate::texts::{ReportedRun, TextStop};
use moir_text_machine::texts;
use text_runs::returned::TextRun;

// A run on a bench of its own, of its listing or, where `traced`, of its trace.
fn own_run(traced: bool, text: &[u8], into: &mut [u8]) -> ReportedRun
    ensures { MoirReported traced text.now into.old result into.new }
{
    let out = texts::run_text(text, traced, into);
    let run = TextRun::from(out);
    let stop = TextStop::from(out.report);
    ReportedRun { run, stop }
}

// A whole text run on Moir's bench, whose listing goes to the bytes lent.
// Wrong programs that this rules out: one that writes the trace in place of the listing; one whose bench has too few words
// for the text's processes and words, so that it refuses with 3.
pub fn besklaun_moir_run_text(text: &[u8], listing: &mut [u8]) -> TextRun
    ensures { (result, listing.new) ≡ moir_text_run false text.now listing.old }
{
    own_run(false, text, listing).run
}

// The same run, with the trace in place of the listing.
pub fn besklaun_moir_trace_text(text: &[u8], trace: &mut [u8]) -> TextRun
    ensures { (result, trace.new) ≡ moir_text_run true text.now trace.old }
{
    own_run(true, text, trace).run
}

// The two with the report of the stop.
pub fn besklaun_moir_run_text_with_report(text: &[u8], listing: &mut [u8]) -> ReportedRun
    ensures { MoirReported false text.now listing.old result listing.new }
{
    own_run(false, text, listing)
}

pub fn besklaun_moir_trace_text_with_report(text: &[u8], trace: &mut [u8]) -> ReportedRun
    ensures { MoirReported true text.now trace.old result trace.new }
{
    own_run(true, text, trace)
}
