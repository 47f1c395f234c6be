// What a command to a station is.
ghost use Rattle.std.specs.Prelude.{◌≡◌};
ghost use Rattle.station_rows.specs.Ordered.{ordered, order_in, named_in};

use llsc::Order;

// What a process is ordered: to start a call on the record that it names, or to take a step of its open call.
#[derive(Clone, Copy)]
pub enum Ordered {
    Ll(usize),
    Sc(usize),
    Vl(usize),
    Step,
}

impl Ordered {
    // An order as users give it: they name a record at a step too, and there it means nothing.
    pub fn new(order: Order, named: usize) -> Ordered
        ensures { result ≡ ordered order named }
    {
        match order {
            Order::StartLl => Ordered::Ll(named),
            Order::StartSc => Ordered::Sc(named),
            Order::StartVl => Ordered::Vl(named),
            Order::Step => Ordered::Step,
        }
    }

    // The order, on whichever record.
    pub fn order(self) -> Order
        ensures { result ≡ order_in self }
    {
        match self {
            Ordered::Ll(_) => Order::StartLl,
            Ordered::Sc(_) => Order::StartSc,
            Ordered::Vl(_) => Order::StartVl,
            Ordered::Step => Order::Step,
        }
    }

    // The record that a start names.
    pub fn named(self) -> Option<usize>
        ensures { result ≡ named_in self }
    {
        match self {
            Ordered::Ll(named) | Ordered::Sc(named) | Ordered::Vl(named) => Some(named),
            Ordered::Step => None,
        }
    }
}

// Which process is ordered what. The words that an SC brings are lent beside it.
#[derive(Clone, Copy)]
pub struct Command {
    pub process: usize,
    pub order: Ordered,
}
