// Two board traces made one (02, CR 12). `merge` is for users and asks nothing of its caller.

#![tactic(auto)]

pub mod merging;
pub mod processes;
pub mod records;
pub mod refusals;
pub mod trailers;

ghost use Rattle.std.specs.Prelude.{◌≡◌};
ghost use Rattle.boards.specs.Merging.{told, merge_files};

use llsc::refusals::Refusal;

// The number of the refusal, 0 for none, and the bytes written.
// Kept: C reads it as it stands (`besklaun`), and no enum crosses to C.
#[repr(C)]
#[derive(Clone, Copy)]
pub struct Merged {
    pub number: u8,
    pub written: usize,
}

impl From<Result<usize, Refusal>> for Merged {
    ghost from_gives = { λ outcome m. m ≡ told outcome };

    fn from(outcome: Result<usize, Refusal>) -> Merged {
        match outcome {
            Ok(written) => Merged { number: 0, written },
            Err(refusal) => Merged {
                number: refusal.number(),
                written: 0,
            },
        }
    }
}

// Two files into one: the bytes written. At a refusal the output stays as it was; else the bytes after those written do.
// Ruled out: the second file first at equal ticks, 27 before 26, a falling tick, a record left out at the end of a
// file, free bytes in the result.
#[tactic(auto, using(std::proofs::lemmas::Result::err_from_is_err_and, crate::proofs::RefusalLaws::merge_refused))]
pub fn merge(first: &[u8], second: &[u8], out: &mut [u8]) -> Result<usize, Refusal>
    ensures { (told result, out.new) ≡ merge_files first.now second.now out.old }
{
    let records = refusals::records_of_both(first, second, out.len())?;
    Ok(merging::write_merged(records, out))
}
