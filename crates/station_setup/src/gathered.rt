// The set-up of a station with its process records, as they were gathered: all of it but storing them back.
ghost use Rattle.std.specs.Prelude.{◌≡◌, IfOk};
ghost use Rattle.station_setup.specs.SetUpGathered.{told_all, set_up_gathered};

use llsc::refusals::Refusal;
use station_records::gathered::Gathered;
use station_records::left::Left;

// The set-up by value, but for the lent words, which it writes.
#[tactic(auto, using(crate::proofs::StoredSetUp::gathered_laws))]
pub fn set_up_gathered(
    lent: Gathered,
    n: usize,
    w: usize,
    r: usize,
    value: &[u64],
    words: &mut [u64],
) -> Result<Left, Refusal>
    ensures is { (told_all lent.station lent.all result, words.new)
        ≡ set_up_gathered lent.station lent.all lent.len n w r value.now words.old }
    ensures sized { IfOk result (λ left. left.station.n ≡ n) }
{
    let station = crate::prepare(lent.station, lent.len, n, w, r, value, words)?;
    let all = crate::processes_at_set_up(lent.all, n, r, n);
    Ok(Left { station, all })
}
