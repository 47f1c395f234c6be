// The parts of a trace line, each with the space before it.
ghost use Rattle.std.specs.Prelude.{◌++◌};
ghost use Rattle.listing.specs.Writing.{Fits, Writes};
ghost use Rattle.trace_parts.specs.TraceParts.{spaced};
ghost use Rattle.access.specs.TraceLines.{half_text, half_place_text, item_text, values_text, stored_text, written_text, act_text};

use crate::{Act, Values};
use doings::Item;
use listing::Writer;

// Which half of its word a place is.
#[tactic(auto, unfolding(crate::specs::TraceLines::half_text))]
fn half_name(to: &mut Writer<'_>, k: usize)
    requires { Fits to.old (half_text k) }
    ensures { Writes to.old (half_text k) to.new }
{
    if k % 2 == 0 {
        to.plain(b" low");
    } else {
        to.plain(b" high");
    }
}

// A place of a buffer: its word, and which half.
#[tactic(auto, unfolding(crate::specs::TraceLines::half_place_text), using(listing::proofs::WritingLaws::writes_then))]
fn half_place(to: &mut Writer<'_>, k: usize)
    requires { Fits to.old (half_place_text k) }
    ensures { Writes to.old (half_place_text k) to.new }
{
    trace_parts::bracketed(to, (k / 2) as u64);
    half_name(to, k);
}

#[tactic(auto, unfolding(crate::specs::TraceLines::item_text), using(listing::proofs::WritingLaws::writes_then))]
pub fn item(to: &mut Writer<'_>, item: Item)
    requires { Fits to.old (item_text item) }
    ensures { Writes to.old (item_text item) to.new }
{
    match item {
        Item::X => to.plain(b" X"),
        Item::Bank(i) => {
            to.plain(b" Bank");
            trace_parts::bracketed(to, i.0 as u64);
        }
        Item::Help(i) => {
            to.plain(b" Help");
            trace_parts::bracketed(to, i.0 as u64);
        }
        Item::Half(f, k) => {
            to.plain(b" BUF");
            trace_parts::bracketed(to, f.0 as u64);
            half_place(to, k);
        }
    }
}

#[tactic(auto, using(listing::proofs::WritingLaws::writes_then))]
fn pair(to: &mut Writer<'_>, first: u64, second: u64)
    requires { Fits to.old (spaced first ++ spaced second) }
    ensures { Writes to.old (spaced first ++ spaced second) to.new }
{
    trace_parts::spaced(to, first);
    trace_parts::spaced(to, second);
}

// One value or two, as many as the item has.
#[tactic(auto, unfolding(crate::specs::TraceLines::values_text))]
fn values(to: &mut Writer<'_>, values: Values)
    requires { Fits to.old (values_text values) }
    ensures { Writes to.old (values_text values) to.new }
{
    match values {
        Values::X(v) => pair(to, v.buf.0 as u64, v.seq.0 as u64),
        Values::Bank(_, v) => trace_parts::spaced(to, v.0 as u64),
        Values::Help(_, v) => pair(to, v.flag as u64, v.buf.0 as u64),
        Values::Half(_, _, v) => trace_parts::spaced(to, v),
    }
}

// Of an SC: whether it wrote, and so cleared all links.
#[tactic(auto, unfolding(crate::specs::TraceLines::stored_text), using(listing::proofs::WritingLaws::writes_then, listing::proofs::WritingLaws::writes_none))]
fn stored(to: &mut Writer<'_>, t: bool)
    requires { Fits to.old (stored_text t) }
    ensures { Writes to.old (stored_text t) to.new }
{
    trace_parts::truth(to, t);
    if t {
        to.plain(b" links cleared");
    }
}

// Of a plain write: it clears all links of its item, where it has any.
#[tactic(auto, unfolding(crate::specs::TraceLines::written_text))]
fn written(to: &mut Writer<'_>, values: Values)
    requires { Fits to.old (written_text values) }
    ensures { Writes to.old (written_text values) to.new }
{
    match values {
        Values::X(_) | Values::Bank(_, _) | Values::Help(_, _) => to.plain(b" links cleared"),
        Values::Half(_, _, _) => {}
    }
}

// The act, with the values that it names.
#[tactic(auto, unfolding(crate::specs::TraceLines::act_text), using(listing::proofs::WritingLaws::writes_then))]
pub fn act(to: &mut Writer<'_>, act: Act)
    requires { Fits to.old (act_text act) }
    ensures { Writes to.old (act_text act) to.new }
{
    match act {
        Act::Read(v) => {
            to.plain(b" read");
            values(to, v);
        }
        Act::Write(v) => {
            to.plain(b" write");
            values(to, v);
            written(to, v);
        }
        Act::Ll(v) => {
            to.plain(b" LL");
            values(to, v);
            to.plain(b" link set");
        }
        Act::Sc(t, v) => {
            to.plain(b" SC");
            values(to, v);
            stored(to, t);
        }
        Act::Vl(t, _) => {
            to.plain(b" VL");
            trace_parts::truth(to, t);
        }
    }
}
