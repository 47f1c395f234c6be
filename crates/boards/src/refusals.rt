// The causes for which a merge is refused, and their order: 25, 26, 27, 28.
ghost use Rattle.std.specs.Prelude.{◌≡◌, ◌≤◌, MatchResult};
ghost use Rattle.boards.specs.Files.{largest};
ghost use Rattle.boards.specs.Merging.{file_size, too_large};
ghost use Rattle.boards.specs.Merged.{Both, RefusedWith};

use crate::merging::Left;
use crate::processes::share_process;
use crate::records::{RECORD_SIZE, good_records};
use crate::trailers::{LARGEST, TRAILER_SIZE, records_of};
use llsc::refusals::Refusal;

// Row 28, for so many records.
fn too_large(count: usize, room: usize) -> bool
    requires { count ≤ largest }
    ensures { result ≡ too_large (file_size count) room }
{
    let size = RECORD_SIZE * count + TRAILER_SIZE;
    room < size || LARGEST < size
}

// The records of two files that may be merged; refused for the first cause that holds.
#[tactic(auto, using(crate::proofs::RefusalLaws::both_laws))]
pub(crate) fn records_of_both<'a>(
    first: &'a [u8],
    second: &'a [u8],
    room: usize,
) -> Result<Left<'a>, Refusal>
    ensures { MatchResult result (Both first.now second.now room) (RefusedWith first.now second.now room) }
{
    let first = records_of(first).ok_or(Refusal::BadTrailer)?;
    let second = records_of(second).ok_or(Refusal::BadTrailer)?;
    if !good_records(first) || !good_records(second) {
        return Err(Refusal::BadRecord);
    }
    if share_process(first, second) {
        return Err(Refusal::ProcessInBoth);
    }
    let both = Left { first, second };
    if too_large(both.count(), room) {
        return Err(Refusal::TooLittleRoom);
    }
    Ok(both)
}
