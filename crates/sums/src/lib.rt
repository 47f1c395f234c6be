// The sums of a season of listings, and its table (CR 2). `empty_sums`, `add_listing` and `table_of` are for users;
// none asks anything of its caller.

#![tactic(auto)]

ghost use Rattle.std.specs.Prelude.{◌≡◌, ◌++◌, ◌∷◌, Some, decimal};
ghost use Rattle.sums.specs.declared.NotAdded.TheVariants.{Refused};
ghost use Rattle.sums.specs.Season.{empty_sums, not_added_number, told_added, added};
ghost use Rattle.sums.specs.Fractions.{told_table, table};

mod refusals;
mod table_rows;

use answers::NO_SUM;
use llsc::refusals::Refusal;
use std::fmt;
use std::fmt::{Display, Formatter};

// The sums of the listings taken so far, of n processes and w words. Those of processes not below n are never looked
// at.
#[repr(C)]
#[derive(Clone, Copy, PartialEq, Eq)]
pub struct Sums {
    pub n: u64,
    pub w: u64,
    pub taken: u64,
    pub each: [answers::Sum; 16],
}

// Why a listing is not added: a row of the refusals, or that it is no listing, with the place of its first wrong byte.
// Kept: both are errors of a `Result`; a struct of a refusal and an `Option` of a place would take one at any row.
#[derive(Clone, Copy, PartialEq, Eq)]
pub enum NotAdded {
    Refused(Refusal),
    NoListing { at: usize },
}

impl NotAdded {
    // The number that users are told.
    // Kept: 02 promises its users a number.
    pub fn number(self) -> u8
        ensures { result ≡ not_added_number self }
    {
        match self {
            NotAdded::Refused(refusal) => refusal.number(),
            NotAdded::NoListing { at: _ } => Refusal::NoListing.number(),
        }
    }
}

impl From<Refusal> for NotAdded {
    ghost from_gives = { λ r n. n ≡ Refused r };

    fn from(row: Refusal) -> NotAdded {
        NotAdded::Refused(row)
    }
}

// `over` parts of `under`.
#[repr(C)]
#[derive(Clone, Copy)]
pub struct Fraction {
    pub over: u64,
    pub under: u64,
}

// Printed as `over/under`.
impl Display for Fraction {
    ghost output = { λ f. Some (decimal f.over ++ 47 ∷ decimal f.under) };

    fn fmt<W: fmt::Write>(&self, f: &mut Formatter<W>) -> fmt::Result {
        write!(f, "{}/{}", self.over, self.under)
    }
}

// The fractions of a process: successful SCs over SCs answered, and LL steps over LLs answered.
#[repr(C)]
#[derive(Clone, Copy)]
pub struct Row {
    pub successes: Fraction,
    pub steps: Fraction,
}

// CR 2's limits.
const MOST_LISTINGS: u64 = 4096;

const LONGEST_LISTING: usize = 65536;

// The sums before the first listing.
#[tactic(auto, unfolding(crate::specs::Season::empty_sums))]
pub fn empty_sums(n: u64, w: u64) -> Sums
    ensures { result ≡ empty_sums n w }
{
    Sums {
        n,
        w,
        taken: 0,
        each: [NO_SUM; 16],
    }
}

// The sums with a listing added. Where it is not added, the caller's sums stay.
#[tactic(auto, using(crate::proofs::AddLaws::adding))]
pub fn add_listing(sums: Sums, listing: &[u8]) -> Result<Sums, NotAdded>
    ensures { told_added result ≡ added sums listing.now }
{
    refusals::sums_refusal(sums)?;
    Refusal::SeasonFull.if_holds(MOST_LISTINGS <= sums.taken)?;
    if LONGEST_LISTING < listing.len() {
        return Err(NotAdded::NoListing {
            at: LONGEST_LISTING,
        });
    }
    match answers::read_listing(sums.n, sums.w, sums.each, listing) {
        Ok(each) => Ok(Sums {
            n: sums.n,
            w: sums.w,
            taken: sums.taken + 1,
            each,
        }),
        Err(wrong) => Err(NotAdded::NoListing { at: wrong.at }),
    }
}

// The table: a row for each process below n, and 0 over 0 for the others.
#[tactic(auto, unfolding(crate::specs::Fractions::table), using(crate::proofs::RefusalLaws::few_pass))]
pub fn table_of(sums: Sums) -> Result<[Row; 16], Refusal>
    ensures { told_table result ≡ table sums }
{
    refusals::sums_refusal(sums)?;
    Ok(table_rows::rows_of(sums.each, sums.n as usize))
}
