// Board traces (02, CR 12) for C.
ghost use Rattle.std.specs.Prelude.{◌≡◌};
ghost use Rattle.boards.specs.Merging.{merge_files};
ghost use Rattle.besklaun.specs.BoardRuns.{board_run};

use boards::Merged;
use llsc::refusals::number_of;
use text_entry::state::Held;

// Two trace files made one, into the bytes lent.
// Kept: two files and the bytes one by one, as the C library's header declares them.
// Wrong programs that this rules out: one that takes the two files the other way round, which shows at equal ticks; one
// that says the bytes written and not the number of the refusal.
pub fn besklaun_merge(first: &[u8], second: &[u8], out: &mut [u8]) -> Merged
    ensures { (result, out.new) ≡ merge_files first.now second.now out.old }
{
    Merged::from(boards::merge(first, second, out))
}

// What a run of a file returns: its number, 0 at `end`, the commands done and the bytes written.
// Kept: no enum crosses to C.
#[repr(C)]
#[derive(Clone, Copy)]
pub struct BoardRun {
    pub number: u8,
    pub done: usize,
    pub written: usize,
}

// A trace file run on record 0 of a bench that is set up for it, whose listing goes to the bytes lent.
// Kept: N, W, the initial number and the file one by one, as the C library's header declares them.
// Wrong programs that this rules out: one that runs the file before its set-up is looked at; one that counts a refused
// command as done; one that stops after 60,000 commands.
#[tactic(auto, using(text_machine::proofs::RecordLaws::fillers))]
pub fn besklaun_run_board(
    n: usize,
    w: usize,
    initial: u32,
    file: &[u8],
    listing: &mut [u8],
) -> BoardRun
    ensures { (result, listing.new) ≡ board_run n w initial file.now listing.old }
{
    // Kept: one expression, here, in `texts` and in three programs: a function would say no more.
    let mut words = [0; 5120];
    let held = Held::empty();
    let out = board_listing::listed::run_listed(held, n, w, initial, file, &mut words, listing);
    BoardRun {
        number: number_of(out.outcome),
        done: out.entries,
        written: out.written,
    }
}
