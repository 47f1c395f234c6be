// The accesses to the header.
ghost use Rattle.std.specs.Prelude.{◌≡◌};
ghost use Rattle.moir_access.specs.Accesses.{header_read, header_cas};

use crate::{Access, Act, Content, Item};
use moir_model::{Header, Process};

// Lines 7, 10, 13 and 14.
pub fn read(line: u8, header: Header) -> Access
    ensures { result ≡ header_read line header }
{
    Access {
        line,
        item: Item::Hdr,
        act: Act::Read(Content::from(header)),
    }
}

// Line 19: CAS(addr, oldhdr, newhdr).
pub fn cas(header: Header, process: Process) -> Access
    ensures { result ≡ header_cas header process }
{
    let expected = Content::from(process.oldhdr);
    let new = Content::from(process.newhdr);
    Access {
        line: 19,
        item: Item::Hdr,
        act: Act::Cas(expected, new, header == process.oldhdr),
    }
}
