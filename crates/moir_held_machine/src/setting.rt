// The set-up of a held list. What N and W do not need stays.
ghost use Rattle.std.specs.Prelude.{◌≡◌, ◌-◌, ◌≤◌, length};
ghost use Rattle.moir_model.specs.SetUp.{at_set_up};
ghost use Rattle.moir_machine.specs.SetUpByValue.{Accepted};
ghost use Rattle.moir_held_model.specs.Memory.{memory_of};
ghost use Rattle.moir_held_model.specs.HeldCommand.{MarksSet, SetUpDone};
ghost use Rattle.moir_held_machine.specs.Setting.{head_set, WordsSet, Room};

use llsc::ProcessNumber;
use moir_held_rows::{layout, table};
use moir_machine::setting_up;
use words::word_runs;

// N, W, the header, the tags and the processes.
fn write_head(held: &mut [u64], n: usize, w: usize)
    requires { (n ≤ 16) × ((w ≤ 64) × (340 ≤ length held.old)) }
    ensures { held.new ≡ head_set held.old n w }
{
    word_runs::copy_in(held, 0, &[n as u64, w as u64, 0, 0]);
    let tags = layout::tag_place(0);
    word_runs::fill(held, tags, tags + w, 0);
    let first = layout::process_place(ProcessNumber(0));
    word_runs::fill(held, first, first + 17 * n, 0);
}

// The words, from the place `at` on.
fn write_words(held: &mut [u64], at: usize, n: usize, w: usize, value: &[u64])
    requires { (at ≤ length held.old) × Accepted n w (length held.old - at) (length value.now) }
    ensures { WordsSet held.old held.new at n w value.now }
{
    setting_up::words_at_set_up(&mut held[at..], n, w, value);
}

// One that no row refuses.
fn prepare(held: &mut [u64], n: usize, w: usize, value: &[u64])
    requires { Room held.old n w (length value.now) }
    ensures memory { memory_of held.new ≡ at_set_up (memory_of held.old) n w value.now }
    ensures marks { MarksSet held.old n held.new }
{
    write_head(held, n, w);
    write_words(held, layout::WORDS, n, w, value);
}

// A set-up of a held list for N = n and W = w with the given value: the number of its refusal, 0 for none.
pub fn set_up(held: &mut [u64], n: usize, w: usize, value: &[u64]) -> u8
    ensures { SetUpDone held.old n w value.now result held.new }
{
    let lent = table::lent(n, w, held.len());
    match setting_up::set_up_refusal(lent, value.len()) {
        Ok(()) => {
            prepare(held, n, w, value);
            0
        }
        Err(refusal) => refusal.number(),
    }
}
