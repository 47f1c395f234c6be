// What an entry orders: its process and its order.
ghost use Rattle.std.specs.Prelude.{◌≡◌};
ghost use Rattle.text_runs.specs.TextRun.{process_of, order_of};

use llsc::Order;
use notation::Entry;

pub fn process_of(e: Entry) -> u64
    ensures { result ≡ process_of e }
{
    match e {
        Entry::StartLl(p)
        | Entry::StartVl(p)
        | Entry::StartSc(p, _)
        | Entry::Step(p)
        | Entry::Finish(p) => p,
    }
}

// Kept: neither `Entry` nor `Order` is this crate's, so there is no `From` of one for the other.
pub fn order_of(e: Entry) -> Order
    ensures { result ≡ order_of e }
{
    match e {
        Entry::StartLl(_) => Order::StartLl,
        Entry::StartVl(_) => Order::StartVl,
        Entry::StartSc(_, _) => Order::StartSc,
        Entry::Step(_) | Entry::Finish(_) => Order::Step,
    }
}
