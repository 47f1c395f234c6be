// What an item holds, as an access names it.
ghost use Rattle.std.specs.Prelude.{◌≡◌};
ghost use Rattle.moir_access.specs.Items.{header_content, segment_content};

use crate::Content;
use moir_model::{Header, Segment};

// Tag and process.
impl From<Header> for Content {
    ghost from_gives = { λ header content. content ≡ header_content header };

    fn from(header: Header) -> Self {
        Content::Tagged(u64::from(header.tag), u64::from(header.pid.0))
    }
}

// Tag and word.
impl From<Segment> for Content {
    ghost from_gives = { λ segment content. content ≡ segment_content segment };

    fn from(segment: Segment) -> Self {
        Content::Tagged(u64::from(segment.tag), segment.val)
    }
}
