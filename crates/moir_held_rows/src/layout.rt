// Where each number of a held list of Moir's bench stands.
ghost use Rattle.std.specs.Prelude.{◌≡◌, ◌≤◌};
ghost use Rattle.moir_held_model.specs.Layout.{tag_place, process_place};

use llsc::ProcessNumber;

// The header: tag, process.
pub const HEADER: usize = 2;

// The words, in rows of W.
pub const WORDS: usize = 340;

// The tag of segment k.
pub fn tag_place(k: usize) -> usize
    requires { k ≤ 64 }
    ensures { result ≡ tag_place k }
{
    4 + k
}

// Process p: line, word place, count, mark, the tag that it keeps; x, oldhdr, newhdr, h; y, z.
pub fn process_place(p: ProcessNumber) -> usize
    ensures { result ≡ process_place p.0 }
{
    68 + 17 * (p.0 as usize)
}
