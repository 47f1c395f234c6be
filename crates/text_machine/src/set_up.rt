// The records at the set-up, by value.
ghost use Rattle.std.specs.Prelude.{◌≡◌, ◌≤◌};
ghost use Rattle.model.specs.SetUp.{records_at_set_up};

use llsc::ProcessNumber;
use llsc::counts::Processes;
use model::Process;

// "mybuf of p = 2N + p"; records from N on stay.
#[tactic(auto, using(crate::proofs::SetUpLaws::records_again))]
pub fn records_at_set_up(all: [Process; 16], count: Processes) -> [Process; 16]
    ensures { result ≡ records_at_set_up all count.n }
{
    let mut next = all;
    for p in 0..count.n {
        let me = ProcessNumber(p as u8);
        next[me.record_place()] = setup::record_at_set_up(count, me);
    }
    next
}
