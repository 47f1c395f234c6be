// A season of listings for C (02, CR 2): the sums are a struct that the caller keeps.
ghost use Rattle.std.specs.Prelude.{◌≡◌, Err};
ghost use Rattle.sums.specs.Season.{empty_sums, not_added_number, broken_at};
ghost use Rattle.sums.specs.Fractions.{table};
ghost use Rattle.besklaun.specs.Seasons.{added_told, adding, fractions_of};

use sums::{NotAdded, Row, Sums};

// What adding a listing tells: the number of the refusal, 0 for none, and at 18 the place of the first wrong byte.
// Kept: numbers in place of a Result, as C reads them; so with `Fractions`.
#[repr(C)]
#[derive(Clone, Copy)]
pub struct Added {
    pub number: u8,
    pub at: usize,
}

// The table: the number of the refusal, 0 for none, and a row for each of sixteen processes.
#[repr(C)]
#[derive(Clone, Copy)]
pub struct Fractions {
    pub number: u8,
    pub rows: [Row; 16],
}

impl From<NotAdded> for Added {
    ghost from_gives = { λ e a. a ≡ added_told (Err (record { number = not_added_number e; at = broken_at e })) };

    fn from(why: NotAdded) -> Added {
        let at = match why {
            NotAdded::NoListing { at } => at,
            NotAdded::Refused(_) => 0,
        };
        Added {
            number: why.number(),
            at,
        }
    }
}

// The sums before the first listing of n processes and w words.
pub fn besklaun_empty_sums(n: u64, w: u64) -> Sums
    ensures { result ≡ empty_sums n w }
{
    sums::empty_sums(n, w)
}

// A listing added to them.
// Wrong programs that this rules out: one that adds the answers before the wrong byte of a listing that is not taken.
#[tactic(auto, unfolding(sums::specs::Season::sums_after))]
pub fn besklaun_add_listing(season: &mut Sums, listing: &[u8]) -> Added
    ensures { (result, season.new) ≡ adding season.old listing.now }
{
    match sums::add_listing(*season, listing) {
        Ok(next) => {
            *season = next;
            Added { number: 0, at: 0 }
        }
        Err(why) => Added::from(why),
    }
}

// The table of them.
pub fn besklaun_fractions(season: &Sums) -> Fractions
    ensures { result ≡ fractions_of (table season.now) }
{
    match sums::table_of(*season) {
        Ok(rows) => Fractions { number: 0, rows },
        Err(refusal) => Fractions {
            number: refusal.number(),
            rows: [Row::NONE; 16],
        },
    }
}
