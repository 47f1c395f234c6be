// What a finished run is handed on as: with another thing held, or as what a user is returned, in Rust or in C.
ghost use Rattle.std.specs.Prelude.{◌≡◌};
ghost use Rattle.text_runs.specs.Returned.{holding, told};

use crate::runs::Finished;
use llsc::refusals::number_of;

impl<H: Copy> Finished<H> {
    // The same end, with this in place of what was held.
    pub fn holding<K>(self, held: K) -> Finished<K>
        ensures { result ≡ holding self held }
    {
        Finished {
            held,
            outcome: self.outcome,
            entries: self.entries,
            written: self.written,
            report: self.report,
        }
    }
}

// The number of a run, 0 at `end`, the entries done and the bytes written.
// Kept: 01 promises its users a number, and C reads it as it stands: no enum crosses to C.
#[repr(C)]
#[derive(Clone, Copy)]
pub struct TextRun {
    pub number: u8,
    pub entries: usize,
    pub written: usize,
}

impl<H: Copy> From<Finished<H>> for TextRun {
    ghost from_gives = { λ out run. run ≡ told out };

    fn from(out: Finished<H>) -> TextRun {
        TextRun {
            number: number_of(out.outcome),
            entries: out.entries,
            written: out.written,
        }
    }
}
