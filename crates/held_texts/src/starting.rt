// The set-up of a text's run on a held list.
ghost use Rattle.std.specs.Prelude.{refl};
ghost use Rattle.held_text_model.proofs.FarLaws.{far_refused};

use crate::running::Left;
use held_rows::layout;
use held_setup::setting;
use llsc::refusals::Refusal;
use notation::First;
use text_runs::lists;
use whole_runs::texts::Starter;

impl Starter for Left {
    ghost lendable = { λ s. Unit {0} };

    ghost held = { λ r k ws to. refl };

    ghost lasting = { λ r k ws to s. record { few = s.few; stop = s.stop; room = s.room; lendable = tt } };

    ghost far = { far_refused };

    fn set_up(&mut self, first: First, words: &mut [u64]) -> Result<(), Refusal> {
        let n = first.n as usize;
        let w = first.w as usize;
        station_setup::set_up_refusal(n, w, 1, 16, layout::room(words.len(), 1), w)?;
        let value = lists::repeated(first.initial);
        setting::set_up(words, n, w, 1, &value[..w]);
        Ok(())
    }
}
