// Where the numbers of a text stand, and the first byte that is in none.
ghost use Rattle.std.specs.Prelude.{◌≡◌, ◌<◌, ℕ, Some, length, position, unwrap_or};
ghost use Rattle.logtext.specs.Places.{is_stray, place_of, stray_place};

fn is_stray(b: u8) -> bool
    ensures { result ≡ is_stray b }
{
    !(b.is_ascii_digit() || crate::is_gap(b))
}

// The place at which the number of this index, from 0 on, begins: at a digit that comes after none.
// Kept: `index` counts numbers and not bytes, so that the text can't be cut there before this has found the place.
#[tactic(auto, using(crate::proofs::PlaceLaws::place_stop, crate::proofs::PlaceLaws::place_end))]
pub fn number_place(text: &[u8], index: usize) -> usize
    ensures { result ≡ place_of index text.now }
{
    let mut left = index;
    let mut inside = false;
    for (i, b) in text.iter().enumerate() {
        let digit = b.is_ascii_digit();
        if digit && !inside {
            let is_last = left == 0;
            if is_last {
                return i;
            }
            left -= 1;
        }
        inside = digit;
    }
    text.len()
}

// The place of the first byte that is no digit and no gap, if there is one.
pub fn stray_place(text: &[u8]) -> Option<usize>
    ensures found { result ≡ position is_stray text.now }
    ensures within { (i : ℕ) → result ≡ Some i → i < length text.now }
    ensures place { unwrap_or result (length text.now) ≡ stray_place text.now }
{
    text.iter().position(|b| is_stray(*b))
}
