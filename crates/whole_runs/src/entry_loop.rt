// The one loop of a run: the list of a text's entries carried out, on any bench.
ghost use Rattle.std.specs.Prelude.{◌≡◌, ℕ, List};
ghost use Rattle.listing.specs.declared.Writer.{Writer};
ghost use Rattle.llsc.specs.Refusals.{number_told};
ghost use Rattle.notation.specs.Stretches.{Small};
ghost use Rattle.text_runs.specs.declared.runs.Run.{Run};
ghost use Rattle.text_runs.specs.Machines.{Machine};
ghost use Rattle.text_runs.specs.TextRun.{Progress};
ghost use Rattle.text_runs.specs.KeptEntries.{entries_in};
ghost use Rattle.whole_runs.specs.Carrying.{in_run, done_after, turn_number, Turned, Over, Kept};

use listing::Writer;
use llsc::refusals::Refusal;
use notation::{Entry, entry_words};
use text_runs::runs::{Carried, Run};

// What a bench holds of a run, with which it carries out one entry after the other.
pub trait Carrier: Copy {
    // Its machine; its memory with the lent words; what a run is on it, with the number of the refusal that stopped it;
    // what holds at every moment; and how many records are lent.
    ghost machine: { Machine };

    ghost memory: { Self → List ℕ → machine.Memory };

    ghost progress: { Run Self → ℕ → List ℕ → Writer → Progress machine };

    ghost sound: { Run Self → ℕ → List ℕ → Writer → Type 0 };

    ghost lent: { Self → ℕ };

    // One entry of a run that goes on, after so many: refused, or carried out with its lines; and then whether it stays, as
    // `!` does until its call answers.
    // Kept: `traced` and `done` by value: over `&mut Run` `schedule` took 17.0 million instructions, not 13.4.
    fn turn(
        &mut self,
        traced: bool,
        done: usize,
        e: Entry,
        words: &mut [u64],
        to: &mut Writer<'_>,
    ) -> Result<bool, Refusal>
        requires { (sound (in_run self.old done traced) 0 words.old to.old) × (Small e) }
        ensures is { Turned machine e (progress (in_run self.old done traced) 0 words.old to.old) result
            (progress (in_run self.new (done_after result done) traced) (turn_number result) words.new to.new) }
        ensures sound { sound (in_run self.new (done_after result done) traced) (turn_number result) words.new to.new }
        ensures kept { Kept words.old to.old words.new to.new × (lent self.new ≡ lent self.old) };

    ghost stops: { (r : Run Self) (k : ℕ) (ws : List ℕ) (to : Writer) → (progress r k ws to).stop ≡ k };

    ghost counts: { (r : Run Self) (k : ℕ) (ws : List ℕ) (to : Writer) → (progress r k ws to).entries ≡ r.entries };
}

// An entry that is refused stops the run; `!` stays at its place in the list until its call answers.
#[tactic(auto, using(crate::proofs::LoopLaws::turning_laws))]
pub fn carry_out<B: Carrier>(
    run: Run<B>,
    kept: &[u64],
    words: &mut [u64],
    to: &mut Writer<'_>,
) -> Carried<B>
    requires { B.sound run 0 words.old to.old }
    ensures over { Over B.machine (entries_in kept.now) (B.progress run 0 words.old to.old) result.at
        (B.progress result.run (number_told result.outcome) words.new to.new) }
    ensures sound { B.sound result.run (number_told result.outcome) words.new to.new }
    ensures kept { Kept words.old to.old words.new to.new × (B.lent result.run.held ≡ B.lent run.held) }
{
    let traced = run.traced;
    let mut held = run.held;
    let mut entries = run.entries;
    let mut at = 0;
    // Kept: a while, since `!` takes several turns at one place of the list.
    while at < kept.len() {
        let e = entry_words::entry_in(kept[at]);
        match held.turn(traced, entries, e, words, to) {
            Ok(stays) => {
                entries += 1;
                if !stays {
                    at += 1;
                }
            }
            Err(refusal) => {
                let run = Run {
                    held,
                    entries,
                    traced,
                };
                return Carried {
                    run,
                    at,
                    outcome: Err(refusal),
                };
            }
        }
    }
    let run = Run {
        held,
        entries,
        traced,
    };
    Carried {
        run,
        at,
        outcome: Ok(()),
    }
}
