// The kind of a call: the order that starts it, and its name.
ghost use Rattle.std.specs.Prelude.{◌≡◌, Some};
ghost use Rattle.llsc.specs.CallKinds.{start_of, kind_text};

use crate::Order;
use std::fmt;

#[derive(Clone, Copy)]
pub enum CallKind {
    Ll,
    Sc,
    Vl,
}

// The order that starts a call.
impl From<CallKind> for Order {
    ghost from_gives = { λ kind order. order ≡ start_of kind };

    fn from(kind: CallKind) -> Order {
        match kind {
            CallKind::Ll => Order::StartLl,
            CallKind::Sc => Order::StartSc,
            CallKind::Vl => Order::StartVl,
        }
    }
}

// Kept: apart from the one write, as each write is proved for any writer.
fn name(kind: CallKind) -> &'static str
    ensures { result.now ≡ kind_text kind }
{
    match kind {
        CallKind::Ll => "LL",
        CallKind::Sc => "SC",
        CallKind::Vl => "VL",
    }
}

impl fmt::Display for CallKind {
    ghost output = { λ kind. Some (kind_text kind) };

    fn fmt<W: fmt::Write>(&self, f: &mut fmt::Formatter<W>) -> fmt::Result {
        f.write_str(name(*self))
    }
}
