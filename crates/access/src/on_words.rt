// The accesses to a half word of BUF. w is W.
ghost use Rattle.std.specs.Prelude.{◌≡◌, ◌<◌, ◌≤◌, length, get_or};
ghost use Rattle.model.specs.Sizes.{halves};
ghost use Rattle.model.specs.Words.{buffer_word, word_of, half};
ghost use Rattle.access.specs.AccessOn.{read_half, write_half};

use crate::{Access, Act, Values};
use model::{BufferNumber, Process};
use words::word_places;

// The half of place k of BUF[f], with that half of the word that lies at `from`.
// Kept: a place in all words, here and in `write`, as `word_runs` has it.
fn half_of(f: BufferNumber, k: usize, from: usize, words: &[u64]) -> Values
    requires { from < length words.now }
    ensures { result ≡ Values.Half f k (half k (get_or words.now from 0)) }
{
    Values::Half(f, k, word_places::half(k, words[from]))
}

// Lines 3, 6 and 7's copy: a half word of BUF[f].
pub fn read(line: u8, f: BufferNumber, w: usize, process: Process, words: &[u64]) -> Access
    requires { (w ≤ 64) × ((process.word < halves w) × (buffer_word w f (word_of process.word) < length words.now)) }
    ensures { result ≡ read_half line f w process words.now }
{
    let k = process.word;
    let from = word_places::buffer_word(w, f, k / 2);
    Access {
        line,
        act: Act::Read(half_of(f, k, from, words)),
    }
}

// Lines 11 and 17: a half of the word at `from`, of the return area or of the offer area, to BUF[mybuf].
pub fn write(line: u8, from: usize, process: Process, words: &[u64]) -> Access
    requires { from < length words.now }
    ensures { result ≡ write_half line from process words.now }
{
    let brought = half_of(process.mybuf, process.word, from, words);
    Access {
        line,
        act: Act::Write(brought),
    }
}
