// The view of a value that was written (01, "The view").

#![tactic(auto)]

ghost use Rattle.std.specs.Prelude.{◌≡◌};
ghost use Rattle.llsc.specs.Refusals.{number_told};
ghost use Rattle.model.specs.View.{view_number, view};

use llsc::refusals::Refusal;
use rows::causes;

// A view's refusal: rows 2, 3, 8, 15.
// Ruled out: one that takes the last success for one too many (15 at a good number), and one that looks at the value
// before the list (8 where 3 comes first).
#[tactic(auto, unfolding(model::specs::View::view_number))]
pub fn view_refusal(w: usize, value: &[u64], written: &[u64], k: usize) -> Result<(), Refusal>
    ensures { number_told result ≡ view_number w value.now written.now k }
{
    Refusal::WOutOfRange.if_holds(causes::w_out_of_range(w))?;
    Refusal::TooLittleLent.if_holds(written.len() % w != 0)?;
    Refusal::ValueNotWWords.if_holds(value.len() != w)?;
    Refusal::NoSuchSuccess.if_holds(written.len() / w < k)
}

// The words of success k, no copy: the set-up value for 0, else a part of the list; an empty part of the set-up value
// at a refusal.
// Ruled out: one that counts the successes in the list from 0, and one that gives an empty part of the list when
// refused.
#[tactic(auto, using(crate::proofs::ViewLaws::view_laws))]
pub fn view<'a>(w: usize, value: &'a [u64], written: &'a [u64], k: usize) -> &'a [u64]
    ensures { (result.ref_ptr, result.now) ≡ view w value.entry written.entry k }
{
    if let Err(_) = view_refusal(w, value, written, k) {
        return &value[..0];
    }
    if k == 0 {
        return &value[..];
    }
    let from = (k - 1) * w;
    let to = from + w;
    &written[from..to]
}
