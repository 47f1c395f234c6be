// What a bench is ordered, and which process: the same for every bench.

#![tactic(auto)]

ghost use Rattle.std.specs.Prelude.{◌≡◌};
ghost use Rattle.llsc.specs.Rows.{is_start};

pub mod calls;
pub mod counts;
pub mod refusals;

pub use crate::calls::CallKind;

// A process's number, below N.
#[derive(Clone, Copy, Default, PartialEq, Eq)]
pub struct ProcessNumber(pub u8);

impl ProcessNumber {
    // The place of its record among the process records of a bench: no number of another kind has one there.
    pub fn record_place(self) -> usize
        ensures { result ≡ self.0 }
    {
        self.0 as usize
    }
}

// What a command orders.
#[derive(Clone, Copy)]
pub enum Order {
    StartLl,
    StartSc,
    StartVl,
    Step,
}

// Whether an order is a start.
pub fn is_start(order: Order) -> bool
    ensures { result ≡ is_start order }
{
    !matches!(order, Order::Step)
}
