// Where the lent words lie: 3N + 1 rows of W words.
ghost use Rattle.std.specs.Prelude.{◌≡◌, ◌<◌, ◌≤◌};
ghost use Rattle.moir_steps.specs.Rows.{row_number, row_word};

use llsc::ProcessNumber;

// A row: A[q] is row q, then come the segments' words, the return areas and the offer areas.
#[derive(Clone, Copy)]
pub enum Row {
    Announced(ProcessNumber),
    Segments,
    Returned(ProcessNumber),
    Offered(ProcessNumber),
}

impl Row {
    // Where its word k lies.
    // Kept: k < 64 as a clause, since a word place is a number in a lent record, which may hold any.
    pub fn word(self, n: usize, w: usize, k: usize) -> usize
        requires { (row_number n self ≤ 288) × ((w ≤ 64) × (k < 64)) }
        ensures { result ≡ row_word n w self k }
    {
        let row = match self {
            Row::Announced(q) => q.0 as usize,
            Row::Segments => n,
            Row::Returned(p) => n + 1 + p.0 as usize,
            Row::Offered(p) => 2 * n + 1 + p.0 as usize,
        };
        row * w + k
    }
}
