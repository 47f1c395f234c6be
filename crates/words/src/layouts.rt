// Where a record's words lie: the rows, of W words each, at which its buffers, the return areas and the offer areas
// begin.
ghost use Rattle.std.specs.Prelude.{◌≡◌, ◌+◌, ◌*◌, ◌≤◌, ◌<◌};

use llsc::ProcessNumber;
use llsc::counts::Processes;
use model::{BufferNumber, sizes};

#[derive(Clone, Copy)]
pub struct FirstRows {
    pub buffers: usize,
    pub returns: usize,
    pub offers: usize,
    pub w: usize,
    // so few that a place in them fits a machine number
    pub ghost few: { (buffers ≤ 400) × ((returns ≤ 400) × ((offers ≤ 400) × (w ≤ 64))) },
}

// Where word k of a row lies.
pub(crate) fn word_of_row(row: usize, w: usize, k: usize) -> usize
    requires { (row ≤ 655) × ((w ≤ 64) × (k < 64)) }
    ensures { result ≡ row * w + k }
{
    row * w + k
}

impl FirstRows {
    ghost use Rattle.model.specs.Words.{buffer_in, return_in, offer_in};
    ghost use Rattle.words.specs.Layouts.{layout_from, OneRecord};

    // One record alone.
    pub fn one_record(n: usize, w: usize) -> FirstRows
        requires { (n ≤ 16) × (w ≤ 64) }
        ensures { OneRecord n w result }
    {
        let count = Processes { n };
        FirstRows {
            buffers: 0,
            returns: sizes::buffers(count),
            offers: sizes::rows_before_offers(count),
            w,
        }
    }

    // Where word k of BUF[b] lies.
    // Kept: beside `return_in` and `offer_in`: `word_of_row` is what they share; each has its own first row.
    pub fn buffer_in(self, b: BufferNumber, k: usize) -> usize
        requires { k < 64 }
        ensures { result ≡ buffer_in (layout_from self) self.w b k }
    {
        word_of_row(self.buffers + b.0 as usize, self.w, k)
    }

    // Where word k of p's return area lies.
    pub fn return_in(self, p: ProcessNumber, k: usize) -> usize
        requires { k < 64 }
        ensures { result ≡ return_in (layout_from self) self.w p k }
    {
        word_of_row(self.returns + p.0 as usize, self.w, k)
    }

    // Where word k of p's offer area lies.
    pub fn offer_in(self, p: ProcessNumber, k: usize) -> usize
        requires { k < 64 }
        ensures { result ≡ offer_in (layout_from self) self.w p k }
    {
        word_of_row(self.offers + p.0 as usize, self.w, k)
    }
}
