// Refusals 1 and 2: a number of the first line out of its range.
ghost use Rattle.std.specs.Prelude.{◌≡◌, ◌+◌, length};
ghost use Rattle.listing.specs.Decimal.{decimal};

use crate::pieces::{NONE, Piece};
use listing::Writer;
use llsc::refusals::Refusal;
use positions::Sizes;
use saying::Place;

// Where the number begins.
pub(crate) fn place(refusal: Refusal, sizes: Sizes) -> Place {
    let column = match refusal {
        Refusal::NOutOfRange => 1,
        _ => column_after(sizes.n),
    };
    Place { line: 1, column }
}

pub(crate) fn why(refusal: Refusal, sizes: Sizes) -> [Piece<'static>; 6] {
    match refusal {
        Refusal::NOutOfRange => [
            Piece::Text(b"N is "),
            Piece::Number(sizes.n),
            Piece::Text(b"; it is 1 to 16\n"),
            NONE,
            NONE,
            NONE,
        ],
        _ => [
            Piece::Text(b"W is "),
            Piece::Number(sizes.w),
            Piece::Text(b"; it is 1 to 64\n"),
            NONE,
            NONE,
            NONE,
        ],
    }
}

// The column after a number at the beginning of a text and one space. Numbers are written one way only.
#[tactic(auto, using(listing::proofs::FilledLaws::most))]
fn column_after(n: u64) -> usize
    ensures { result ≡ length (decimal n) + 2 }
{
    let mut digits = [0; 20];
    let mut to = Writer {
        list: &mut digits,
        written: 0,
    };
    to.number(n);
    to.written + 2
}
