// Runs of words: a value copied in, and one number again and again.
// Kept: all words and a place, as a contract says what all of them are then (`sets`), and std says it of the part.
ghost use Rattle.std.specs.Prelude.{◌≡◌, ◌+◌, ◌-◌, ◌≤◌, length, replicate};
ghost use Rattle.std.proofs.lemmas.List.Edits.{sets};

// The words of a value from a place on: the offer of an SC, BUF[0] at the set-up.
#[tactic(auto, using(crate::proofs::RunLaws::part_written))]
pub fn copy_in(words: &mut [u64], at: usize, value: &[u64])
    requires { at + length value.now ≤ length words.old }
    ensures { words.new ≡ sets words.old at value.now }
{
    words[at..at + value.len()].copy_from_slice(value);
}

// One number from one place to before another: the zeros of the set-up, and the offer of an SC in a text, "k in all W
// words".
#[tactic(auto, using(crate::proofs::RunLaws::part_written))]
pub fn fill(words: &mut [u64], from: usize, to: usize, number: u64)
    requires { (from ≤ to) × (to ≤ length words.old) }
    ensures { words.new ≡ sets words.old from (replicate (to - from) number) }
{
    words[from..to].fill(number);
}
