// The causes of the refusal table, a function for each row but 9 (01, "When the bench says no"). What a bench says of its
// own is how many words it needs, and of the process that is named whether it is idle and whether an LL of it was ever
// answered.
ghost use Rattle.std.specs.Prelude.{◌≡◌};
ghost use Rattle.llsc.specs.Rows.{row1, row2, row3, row4, row5, row6, row7, row8};

use llsc::Order;

pub const MOST_PROCESSES: usize = 16;

pub const MOST_WORDS: usize = 64;

// Row 1.
// Kept: beside row 2's, and row 23's in `station_rows`: one range each, which a row's name says to its callers.
pub fn n_out_of_range(n: usize) -> bool
    ensures { result ≡ (row1 n).holds }
{
    n < 1 || n > MOST_PROCESSES
}

// Row 2.
pub fn w_out_of_range(w: usize) -> bool
    ensures { result ≡ (row2 w).holds }
{
    w < 1 || w > MOST_WORDS
}

// Row 3: fewer words than needed or N records.
pub fn too_little_lent(n: usize, needed: usize, records: usize, words: usize) -> bool
    ensures { result ≡ (row3 n needed records words).holds }
{
    words < needed || records < n
}

// Row 4.
pub fn no_such_process(n: usize, p: usize) -> bool
    ensures { result ≡ (row4 n p).holds }
{
    n <= p
}

// Row 5.
pub fn start_at_busy(order: Order, idle: bool) -> bool
    ensures { result ≡ (row5 order idle).holds }
{
    llsc::is_start(order) && !idle
}

// Row 6.
pub fn step_at_idle(order: Order, idle: bool) -> bool
    ensures { result ≡ (row6 order idle).holds }
{
    !llsc::is_start(order) && idle
}

// Row 7: SC or VL started where no LL was ever answered.
pub fn never_linked(order: Order, answered: bool) -> bool
    ensures { result ≡ (row7 order answered).holds }
{
    matches!(order, Order::StartSc | Order::StartVl) && !answered
}

// Row 8. The value of a command is looked at only where it starts an SC.
pub fn value_not_w_words(order: Order, w: usize, value: usize) -> bool
    ensures { result ≡ (row8 order w value).holds }
{
    matches!(order, Order::StartSc) && value != w
}
