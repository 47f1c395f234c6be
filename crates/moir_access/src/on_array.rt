// The accesses to a word of A.
ghost use Rattle.std.specs.Prelude.{◌≡◌, ◌<◌};
ghost use Rattle.moir_lines.specs.Copies.{copy_header};
ghost use Rattle.moir_access.specs.Accesses.{word_read, word_write};

use crate::{Access, Act, Content, Item};
use llsc::ProcessNumber;
use moir_lines::copies::CopyOf;
use moir_steps::before::Before;
use moir_steps::word_places::Row;

// Line 4: a word of the row of the process that the header of Copy names.
pub fn read(copy: CopyOf, before: &Before<'_>) -> Access
    requires { (copy_header copy before.now.process).pid.0 < before.now.bench.now.n }
    ensures { result ≡ word_read (copy_header copy before.now.process) before.now.bench.now before.now.process before.now.words.now }
{
    let q = copy.header(before.process).pid;
    let word = before.word(Row::Announced(q));
    Access {
        line: 4,
        item: Item::Announced(q, before.process.word),
        act: Act::Read(Content::Word(word)),
    }
}

// Line 17: a word of p's offer area goes to p's row.
pub fn write(p: ProcessNumber, before: &Before<'_>) -> Access
    requires { p.0 < before.now.bench.now.n }
    ensures { result ≡ word_write p before.now.bench.now before.now.process before.now.words.now }
{
    let word = before.word(Row::Offered(p));
    Access {
        line: 17,
        item: Item::Announced(p, before.process.word),
        act: Act::Write(Content::Word(word)),
    }
}
