// The accesses to a segment.
ghost use Rattle.std.specs.Prelude.{◌≡◌};
ghost use Rattle.moir_access.specs.Accesses.{segment_read, segment_cas};

use crate::{Access, Act, Content, Item};
use moir_steps::before::Before;

// Lines 2 and 6.
pub fn read(line: u8, before: &Before<'_>) -> Access
    ensures { result ≡ segment_read line before.now.bench.now before.now.process before.now.words.now }
{
    let held = before.segment();
    Access {
        line,
        item: Item::Data(before.process.word),
        act: Act::Read(Content::from(held)),
    }
}

// Line 5: CAS(addr->data[i], y, z).
pub fn cas(before: &Before<'_>) -> Access
    ensures { result ≡ segment_cas before.now.bench.now before.now.process before.now.words.now }
{
    let held = before.segment();
    let process = before.process;
    let expected = Content::from(process.y);
    let new = Content::from(process.z);
    Access {
        line: 5,
        item: Item::Data(process.word),
        act: Act::Cas(expected, new, held == process.y),
    }
}
