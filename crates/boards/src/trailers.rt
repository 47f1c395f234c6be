// The trailer: the offset of the first record, the count of records, four bytes that mark it.
ghost use Rattle.std.specs.Prelude.{◌≡◌, ◌<◌, false, length, MatchOption};
ghost use Rattle.boards.specs.Files.{offset, count, good_trailer, trailer};
ghost use Rattle.boards.specs.Places.{RecordsOf};

pub use crate::records::RECORD_SIZE;
use crate::records::{Record, two_numbers};

// CR 12: "a file over 16,777,216 bytes".
pub const LARGEST: usize = 16777216;

pub const TRAILER_SIZE: usize = 12;

// The offset of a file's first record and the count of its records, as its trailer says, be it right or not; none where
// the file is too short to have one.
#[tactic(auto, using(crate::proofs::RefusalLaws::offset_is, crate::proofs::RefusalLaws::count_is))]
pub fn offset_and_count(file: &[u8]) -> Option<(u32, u32)>
    ensures { MatchOption result (length file.now < 12) (λ told. told ≡ (offset file.now, count file.now)) }
{
    let trailer = file.last_chunk::<TRAILER_SIZE>()?;
    Some(two_numbers(trailer))
}

// The records of a file, as its trailer says; none where row 25 refuses it.
#[tactic(auto, using(crate::proofs::RefusalLaws::records_laws))]
pub fn records_of(file: &[u8]) -> Option<&[Record]>
    ensures { MatchOption result (good_trailer file.now ≡ false) (λ records. RecordsOf file.now records.now) }
{
    let (offset, count) = offset_and_count(file)?;
    let start = offset as usize;
    let end = start + RECORD_SIZE * count as usize;
    if file.len() > LARGEST || !file.ends_with(b"TRAL") || end + TRAILER_SIZE != file.len() {
        return None;
    }
    let (records, _) = file[start..end].as_chunks::<RECORD_SIZE>();
    Some(records)
}

// The trailer of a file with no free bytes.
pub fn trailer(count: u32) -> [u8; TRAILER_SIZE]
    ensures { result ≡ trailer 0 count }
{
    let [a, b, c, d] = count.to_le_bytes();
    [0, 0, 0, 0, a, b, c, d, b'T', b'R', b'A', b'L']
}
