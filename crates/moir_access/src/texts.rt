// The parts of what is shown, each with the space before it.
ghost use Rattle.listing.specs.Writing.{Fits, Writes};
ghost use Rattle.moir_access.specs.TraceParts.{item_text, values_text, act_text};

use crate::{Act, Content, Item};
use listing::Writer;

#[tactic(auto, unfolding(crate::specs::TraceParts::item_text), using(listing::proofs::WritingLaws::writes_then))]
pub fn item(to: &mut Writer<'_>, item: Item)
    requires { Fits to.old (item_text item) }
    ensures { Writes to.old (item_text item) to.new }
{
    match item {
        Item::Hdr => to.plain(b" hdr"),
        Item::Data(k) => {
            to.plain(b" data");
            trace_parts::bracketed(to, k as u64);
        }
        Item::Announced(q, k) => {
            to.plain(b" A");
            trace_parts::bracketed(to, q.0 as u64);
            trace_parts::bracketed(to, k as u64);
        }
    }
}

// The values: a tag and what it stands with, or a word alone.
#[tactic(auto, unfolding(crate::specs::TraceParts::values_text), using(listing::proofs::WritingLaws::writes_then))]
fn values(to: &mut Writer<'_>, v: Content)
    requires { Fits to.old (values_text v) }
    ensures { Writes to.old (values_text v) to.new }
{
    match v {
        Content::Tagged(tag, with) => {
            trace_parts::spaced(to, tag);
            trace_parts::spaced(to, with);
        }
        Content::Word(word) => trace_parts::spaced(to, word),
    }
}

// The act, with the values that it names.
#[tactic(auto, unfolding(crate::specs::TraceParts::act_text), using(listing::proofs::WritingLaws::writes_then))]
pub fn act(to: &mut Writer<'_>, act: Act)
    requires { Fits to.old (act_text act) }
    ensures { Writes to.old (act_text act) to.new }
{
    match act {
        Act::Read(v) => {
            to.plain(b" read");
            values(to, v);
        }
        Act::Write(v) => {
            to.plain(b" write");
            values(to, v);
        }
        Act::Cas(v, u, t) => {
            to.plain(b" CAS");
            values(to, v);
            values(to, u);
            trace_parts::truth(to, t);
        }
    }
}
