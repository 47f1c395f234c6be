// The memory before a step.
ghost use Rattle.std.specs.Prelude.{◌≡◌, ◌≤◌, ◌*◌, get_or};
ghost use Rattle.moir_model.specs.Words.{segment_at};
ghost use Rattle.moir_steps.specs.Ranges.{Standing};
ghost use Rattle.moir_steps.specs.Rows.{row_number, row_word};

use crate::word_places::Row;
use moir_model::{Bench, Process, Segment};

// The bench record, the record of the process that steps and the lent words, in the ranges that a step relies on.
#[derive(Clone, Copy)]
pub struct Before<'a> {
    pub bench: &'a Bench,
    pub process: Process,
    pub words: &'a [u64],
    pub ghost standing: { Standing bench.now process words.now },
}

impl Before<'_> {
    // The word of a row at the process's word place.
    #[tactic(auto, using(crate::proofs::PlaceLaws::row_lies))]
    pub fn word(&self, row: Row) -> u64
        requires { row_number self.now.bench.now.n row ≤ 3 * self.now.bench.now.n }
        ensures { result ≡ get_or self.now.words.now (row_word self.now.bench.now.n self.now.bench.now.w row self.now.process.word) 0 }
    {
        self.words[row.word(self.bench.n, self.bench.w, self.process.word)]
    }

    // The segment there, with its tag from the bench record and its word from the lent words.
    pub fn segment(&self) -> Segment
        ensures { result ≡ segment_at self.now.bench.now self.now.words.now self.now.process.word }
    {
        let tag = self.bench.tags[self.process.word];
        let val = self.word(Row::Segments);
        Segment { tag, val }
    }
}
