// The rows of one trace file before a run (02, CR 12). The function is inner: a run is made of it.

#![tactic(auto)]

ghost use Rattle.std.specs.Prelude.{MatchResult};
ghost use Rattle.boards.specs.Places.{RightFile, WrongFile};

use boards::records::{Record, good_records};
use boards::trailers::records_of;
use llsc::refusals::Refusal;

// The records of a file. "25 and 26 also before a run": refused for the first of them that holds.
#[tactic(auto, using(crate::proofs::FileRows::records_laws))]
pub fn right_records(file: &[u8]) -> Result<&[Record], Refusal>
    ensures { MatchResult result (λ records. RightFile file.now records.now) (WrongFile file.now) }
{
    let records = records_of(file).ok_or(Refusal::BadTrailer)?;
    if !good_records(records) {
        return Err(Refusal::BadRecord);
    }
    Ok(records)
}
