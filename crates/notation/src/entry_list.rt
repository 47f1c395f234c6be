// The list of a text's entries, in numbers that a caller lends.
ghost use Rattle.std.specs.Prelude.{[], ◌∷◌, ◌≤◌, length};

use crate::{Entry, entry_words, turns};

// How many of the numbers are entries.
// Kept: the list and a count: a group's entries are copied within it, which the rest alone could not give.
#[derive(Drop)]
pub struct EntryList<'a> {
    pub list: &'a mut [u64],
    pub count: usize,
    pub ghost inside: { count ≤ length list.now },
}

impl<'a> EntryList<'a> {
    ghost use Rattle.notation.specs.EntryWords.{largest_place};
    ghost use Rattle.notation.specs.Stretches.{Small};
    ghost use Rattle.notation.specs.Listed.{Block};
    ghost use Rattle.notation.specs.Cursor.{Puts, Repeats};

    // An entry and the place of its item, if there is room.
    pub fn keep(&mut self, e: Entry, place: usize)
        requires { (Small e) × (place ≤ largest_place) }
        ensures { Puts (e ∷ []) (place ∷ []) self.old self.new }
    {
        if self.list.len() <= self.count {
            return;
        }
        self.list[self.count] = entry_words::with_place(entry_words::word_of(e), place);
        self.count += 1;
    }

    // The turns of a group after its first, whose entries are those from a place on: copied until they stand there n
    // times or the list is full.
    pub fn repeat(&mut self, from: usize, n: u64)
        requires { Block (length self.old.list.now) from self.old.count n }
        ensures { Repeats from n self.old self.new }
    {
        let end = turns::turns_end(self.list.len(), from, self.count, n);
        let size = self.count - from;
        for next in self.count..end {
            self.list[next] = self.list[next - size];
        }
        self.count = end;
    }
}
