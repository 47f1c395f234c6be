// The set-up of a text run on Moir's bench.
ghost use Rattle.std.specs.Prelude.{◌≡◌, ◌≤◌, length, refl};
ghost use Rattle.moir_model.specs.SetUp.{records_at_set_up};
ghost use Rattle.moir_text_model.proofs.FarLaws.{far};

use crate::turns::Held;
use llsc::counts::Width;
use llsc::refusals::Refusal;
use moir_machine::setting_up;
use moir_model::Process;
use notation::First;
use rows::table::Lent;
use text_runs::lists;
use whole_runs::texts::Starter;

// The records of the first n processes at their set-up.
fn records_at_set_up(mut all: [Process; 16], n: usize) -> [Process; 16]
    requires { n ≤ 16 }
    ensures is { result ≡ records_at_set_up all n }
    ensures sixteen { length result ≡ 16 }
{
    all[..n].fill(moir_model::process_at_set_up());
    all
}

impl Starter for Held {
    ghost lendable = { λ held. Unit {0} };

    ghost held = { λ r k ws to. refl };

    ghost lasting = { λ r k ws to s. record { few = s.entries; stop = s.stop; room = s.room; lendable = tt } };

    ghost far = { far };

    // Kept: beside `text_machine`'s, as it calls its own bench's functions: one for both would name each of them once
    // more.
    fn set_up(&mut self, first: First, words: &mut [u64]) -> Result<(), Refusal> {
        let n = first.n as usize;
        let w = first.w as usize;
        let lent = Lent {
            n,
            w,
            records: 16,
            words: words.len(),
        };
        setting_up::set_up_refusal(lent, w)?;
        let value = lists::repeated(first.initial);
        setting_up::words_at_set_up(words, n, w, &value[..w]);
        self.bench = setting_up::bench_at_set_up(self.bench, n, Width { w });
        self.all = records_at_set_up(self.all, n);
        Ok(())
    }
}
