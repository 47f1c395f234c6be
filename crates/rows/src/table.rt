// The refusal table in row order (01, "When the bench says no"), as far as it looks at lengths, or at a process that is
// named.
ghost use Rattle.std.specs.Prelude.{◌≡◌, [], ◌∷◌};
ghost use Rattle.llsc.specs.Refusals.{number_told};
ghost use Rattle.llsc.specs.Rows.{first, row5, row6, row7, row8};
ghost use Rattle.rows.specs.CommandRows.{lent_number};

use crate::causes;
use llsc::Order;
use llsc::counts::{Processes, Width};
use llsc::refusals::Refusal;
use model::sizes;

// What is lent, in numbers, for N and W: so many process records and words.
#[derive(Clone, Copy)]
pub struct Lent {
    pub n: usize,
    pub w: usize,
    pub records: usize,
    pub words: usize,
}

// Rows 1, 2, 3, with which a set-up begins: the first that holds.
// Kept: beside `moir_rows`' own, as row 3 counts the words of its own bench, and the causes are shared already.
#[tactic(auto, unfolding(crate::specs::CommandRows::lent_number))]
pub fn lent_refusal(lent: Lent) -> Result<(), Refusal>
    ensures { number_told result ≡ lent_number lent.n lent.w lent.records lent.words }
{
    let Lent {
        n,
        w,
        records,
        words,
    } = lent;
    Refusal::NOutOfRange.if_holds(causes::n_out_of_range(n))?;
    Refusal::WOutOfRange.if_holds(causes::w_out_of_range(w))?;
    let needed = sizes::lent_words(Processes { n }, Width { w });
    Refusal::TooLittleLent.if_holds(causes::too_little_lent(n, needed, records, words))
}

// Rows 8, 5, 6, 7, of the process that is named: whether it is idle, and whether an LL of it was answered.
pub fn call_refusal(
    order: Order,
    w: usize,
    value: usize,
    idle: bool,
    answered: bool,
) -> Result<(), Refusal>
    ensures { number_told result ≡ first (row8 order w value ∷ row5 order idle ∷ row6 order idle ∷ row7 order answered ∷ []) }
{
    Refusal::ValueNotWWords.if_holds(causes::value_not_w_words(order, w, value))?;
    Refusal::StartAtBusy.if_holds(causes::start_at_busy(order, idle))?;
    Refusal::StepAtIdle.if_holds(causes::step_at_idle(order, idle))?;
    Refusal::NeverLinked.if_holds(causes::never_linked(order, answered))
}
