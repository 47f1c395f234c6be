// A whole listing: its answer lines, whose gains are added to the sums of their processes, and its last line.
ghost use Rattle.std.specs.Prelude.{◌≡◌};
ghost use Rattle.answers.specs.Gains.{plus};
ghost use Rattle.answers.specs.Readers.{listing_in, sums_read, sums_told, GivesListing, GivesReading};
ghost use Rattle.answers.specs.Ranges.{Below, Readable};

use crate::answer_lines::answer_line;
use crate::last_lines::last_line;
use crate::numbers::begins_with_digit;
use crate::{Sum, Wrong};
use std::ops::AddAssign;

// Two sums added up, where neither is so large that one of the four could overflow.
impl AddAssign for Sum {
    ghost can_add_assign = { λ a b. (Below 9223372036854775807 a) × (Below 9223372036854775807 b) };

    ghost add_assign_gives = { λ a b r. r ≡ plus a b };

    fn add_assign(&mut self, more: Sum) {
        self.successes += more.successes;
        self.scs += more.scs;
        self.steps += more.steps;
        self.lls += more.lls;
    }
}

// The lines of a listing of n processes and w words: the sums with what they add; or the text from the first wrong byte
// on, and the sums with what the lines before add.
#[tactic(auto, using(crate::proofs::WholeLaws::reading_lines))]
fn read_lines<'a>(n: u64, w: u64, sums: &mut [Sum; 16], text: &'a [u8]) -> Result<(), &'a [u8]>
    requires { Readable n sums.old text.now }
    ensures listing { GivesListing result sums.new (listing_in n w sums.old text.now) }
    ensures sums { sums.new ≡ sums_read n w sums.old text.now }
{
    let mut rest = text;
    while begins_with_digit(rest) {
        let (gain, more) = answer_line(rest, n, w)?;
        sums[gain.process as usize] += gain.sum;
        rest = more;
    }
    last_line(rest)
}

// A listing on top of the sums of the processes. Where it is wrong: the sums with the answer lines before, and the
// place of its first wrong byte.
#[tactic(auto, using(crate::proofs::RestLaws::listing_left, crate::proofs::RestLaws::listing_ends))]
pub fn read_listing(n: u64, w: u64, each: [Sum; 16], text: &[u8]) -> Result<[Sum; 16], Wrong>
    requires { Readable n each text.now }
    ensures listing { GivesReading text.now result (listing_in n w each text.now) }
    ensures sums { sums_told result ≡ sums_read n w each text.now }
{
    let mut sums = each;
    match read_lines(n, w, &mut sums, text) {
        Ok(()) => Ok(sums),
        Err(rest) => Err(Wrong {
            each: sums,
            at: text.len() - rest.len(),
        }),
    }
}
