// Figure 1's object, fed the calls of a log. Its words are not copied: they are the value, or those of an SC of the log.
ghost use Rattle.std.specs.Prelude.{◌≡◌, ◌≤◌, ◌<◌, length, None};
ghost use Rattle.llsc.specs.Object.{fresh};
ghost use Rattle.verdicts.specs.Reasons.{not_alike, in_value, numbered_in_order};
ghost use Rattle.verdicts.specs.Log.{entries};
ghost use Rattle.judging.specs.Orders.{count, calls_of, Within, SortedBy};
ghost use Rattle.judging.specs.Objects.{words_held, Sane, told_alike, MovedOn, shown_at, not_alike_at};

use crate::calls::{Admitted, Calls};
use crate::heads;
use crate::order::Order;
use verdicts::{Fault, Shown};

// Whose links are set, and the SC whose words it holds, if it is not the value.
#[derive(Clone, Copy)]
pub struct Held {
    pub links: [bool; 16],
    pub from: Option<usize>,
}

// The words that it holds.
fn words_held<'a>(calls: &Calls<'a>, value: &'a [u64], held: &Held) -> &'a [u64]
    requires { Sane calls.now.w calls.now.log.now held.now }
    ensures { result.now ≡ words_held calls.now.w calls.now.log.now value.now held.now.from }
{
    match held.from {
        None => value,
        Some(from) => calls.words(from),
    }
}

// Whether the object answers a call as the call says.
// Kept: `k < count` is asked: an index of a type of its own would have to hold the log it is of (`Calls::head`).
#[tactic(auto, using(crate::proofs::ObjectLaws::told_ll))]
fn alike<'a>(admitted: &Admitted<'a>, value: &'a [u64], held: &Held, k: usize) -> bool
    requires call { k < count admitted.now.calls.w admitted.now.calls.log.now }
    requires sane { Sane admitted.now.calls.w admitted.now.calls.log.now held.now }
    ensures { result ≡ told_alike admitted.now.calls.w admitted.now.calls.log.now value.now k held.now }
{
    let e = admitted.head(k);
    if e.kind == heads::LL {
        return words_held(&admitted.calls, value, held) == admitted.calls.words(k);
    }
    e.truth == u64::from(held.links[e.process as usize])
}

// The object serves a call.
fn serve(admitted: &Admitted, held: &mut Held, k: usize)
    requires call { k < count admitted.now.calls.w admitted.now.calls.log.now }
    requires sane { Sane admitted.now.calls.w admitted.now.calls.log.now held.old }
    ensures { MovedOn admitted.now.calls.w admitted.now.calls.log.now k held.old held.new }
{
    let e = admitted.head(k);
    let p = e.process as usize;
    if e.kind == heads::LL {
        held.links[p] = true;
    } else if e.kind == heads::SC && held.links[p] {
        held.links = [false; 16];
        held.from = Some(k);
    }
}

// What the object answers a call.
fn shown(admitted: &Admitted, held: &Held, k: usize) -> Shown
    requires { k < count admitted.now.calls.w admitted.now.calls.log.now }
    ensures { result ≡ shown_at admitted.now.calls.w admitted.now.calls.log.now k held.now }
{
    let e = admitted.head(k);
    if e.kind != heads::LL {
        return Shown::Truth(held.links[e.process as usize]);
    }
    match held.from {
        None => Shown::Value,
        Some(from) => Shown::WordsOf(from),
    }
}

// The first call, in the order given, that the object, begun with the value, does not answer alike.
#[tactic(auto, using(crate::proofs::ObjectLaws::serve_go, crate::proofs::ObjectLaws::served_sorted))]
pub fn first_unlike<'a>(admitted: &Admitted<'a>, value: &'a [u64], order: &Order) -> Option<Fault>
    requires few { order.now.count ≤ 512 }
    requires within { Within admitted.now.calls.w admitted.now.calls.log.now order.now }
    ensures given { let calls = admitted.now.calls in
        result ≡ not_alike_at calls.w calls.log.now (fresh value.now) in_value (calls_of order.now) }
    ensures sorted { let calls = admitted.now.calls in SortedBy calls.w calls.log.now order.now
        → result ≡ not_alike (fresh value.now) in_value (numbered_in_order (entries calls.w calls.log.now)) }
{
    let mut held = Held {
        links: [false; 16],
        from: None,
    };
    for k in &order.at[..order.count] {
        if !alike(admitted, value, &held, *k) {
            let answer = shown(admitted, &held, *k);
            return Some(Fault::Answer(*k, answer));
        }
        serve(admitted, &mut held, *k);
    }
    None
}
