// The set-up of a text run on the bench of Figure 2, on what is lent.
ghost use Rattle.std.specs.Prelude.{◌≡◌, ◌≤◌, [], refl};
ghost use Rattle.model.specs.Machine.{Shaped};
ghost use Rattle.model.specs.SetUp.{bench_at_set_up, records_at_set_up};
ghost use Rattle.text_entry.specs.RunState.{Filled};
ghost use Rattle.text_model.proofs.FarLaws.{far_refused};
ghost use Rattle.text_machine.specs.Finished.{memory_of};

use crate::carrying::LentHeld;
use crate::set_up;
use llsc::counts::Processes;
use llsc::refusals::Refusal;
use notation::First;
use rows::table::Lent;
use text_entry::state::Held;
use text_runs::lists;
use whole_runs::texts::Starter;

// Bench and records at the set-up. An array has as many places as its type says, which a caller learns here of a bench
// behind a reference.
fn at_set_up(held: Held, count: Processes, w: usize) -> Held
    ensures is { result ≡ record { bench = bench_at_set_up held.bench count.n w; all = records_at_set_up held.all count.n } }
    ensures shaped { Shaped (memory_of held 0 []) }
{
    let bench = setup::bench_at_set_up(held.bench, count, w);
    let all = set_up::records_at_set_up(held.all, count);
    Held { bench, all }
}

impl Starter for LentHeld {
    ghost lendable = { λ held. (held.len ≤ 16) × Filled held.len held.held.all };

    ghost held = { λ r k ws to. refl };

    ghost lasting = { λ r k ws to s. record { few = s.entries; stop = s.stop; room = s.room; lendable = (s.few, s.filled) } };

    ghost far = { far_refused };

    fn set_up(&mut self, first: First, words: &mut [u64]) -> Result<(), Refusal> {
        let n = first.n as usize;
        let w = first.w as usize;
        let lent = Lent {
            n,
            w,
            records: self.len,
            words: words.len(),
        };
        setup::set_up_refusal(lent, w)?;
        let value = lists::repeated(first.initial);
        setup::words_at_set_up(words, n, w, &value[..w]);
        self.held = at_set_up(self.held, Processes { n }, w);
        Ok(())
    }
}
