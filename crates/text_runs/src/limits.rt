// 01's limits of a text run.
ghost use Rattle.std.specs.Prelude.{◌≡◌};
ghost use Rattle.text_runs.specs.TextRun.{room_needed};
ghost use Rattle.text_runs.specs.Parts.{before_entry};

use llsc::refusals::Refusal;

pub const MOST_ENTRIES: usize = 60000;

// Room for an entry's line, and for a trace's line before it.
pub const LISTING_ROOM: usize = 744;

pub const TRACE_ROOM: usize = 872;

pub const LONGEST_TEXT: usize = 16384;

pub const DEEPEST: usize = 8;

// No limit of 01's: an entry takes three bytes of a text without groups, so a short list has room for those of this many.
pub const SHORT_TEXT: usize = 3072;

// "listing room left under 744 bytes"; a trace needs 128 bytes more.
pub fn room_needed(traced: bool) -> usize
    ensures { result ≡ room_needed traced }
{
    if traced { TRACE_ROOM } else { LISTING_ROOM }
}

// "before each entry 12, then 14".
pub fn before_entry(entries: usize, room: usize, needed: usize) -> Result<(), Refusal>
    ensures { result ≡ before_entry entries room needed }
{
    Refusal::TooMuch.if_holds(MOST_ENTRIES <= entries)?;
    Refusal::NoRoom.if_holds(room < needed)
}
