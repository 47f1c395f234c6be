// Rows 1, 2 and 9.
ghost use Rattle.std.specs.Prelude.{◌≡◌, ◌↔◌, true, not};
ghost use Rattle.std.specs.List.{AllPass};
ghost use Rattle.llsc.specs.Refusals.{number_told};
ghost use Rattle.llsc.specs.Rows.{between};
ghost use Rattle.sums.specs.Season.{small_sum, sums_refusal};

use crate::Sums;
use answers::Sum;
use llsc::refusals::Refusal;

// CR 2: "2 to the 56th".
const SUM_LIMIT: u64 = 72057594037927936;

// Whether all four sums of a process are below it.
fn small_sum(s: Sum) -> bool
    ensures { result ≡ small_sum s }
{
    s.successes < SUM_LIMIT && s.scs < SUM_LIMIT && s.steps < SUM_LIMIT && s.lls < SUM_LIMIT
}

// Whether those of all these processes are.
fn all_small(sums: &[Sum]) -> bool
    ensures { result ≡ true ↔ AllPass small_sum sums.now }
{
    sums.iter().all(|s| small_sum(*s))
}

// Whether a number is 0 or more than the most.
fn out_of_range(x: u64, most: u64) -> bool
    ensures { result ≡ not (between 1 most x) }
{
    x < 1 || most < x
}

// The first of the rows that holds.
#[tactic(auto, unfolding(crate::specs::Season::sums_refusal))]
pub fn sums_refusal(sums: Sums) -> Result<(), Refusal>
    ensures { number_told result ≡ sums_refusal sums }
{
    Refusal::NOutOfRange.if_holds(out_of_range(sums.n, 16))?;
    Refusal::WOutOfRange.if_holds(out_of_range(sums.w, 64))?;
    let small = all_small(&sums.each[..sums.n as usize]);
    Refusal::NumberOutOfRange.if_holds(!small)
}
