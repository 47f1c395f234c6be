// Where the turns of a group end in a list of entries.
ghost use Rattle.notation.specs.Listed.{Block, TurnsEnd};

// Where the last turn ends: at the end of the list where the product of the count and the size does not fit.
pub fn turns_end(len: usize, from: usize, to: usize, n: u64) -> usize
    requires { Block len from to n }
    ensures { TurnsEnd len from to n result }
{
    let turns = (n as usize).saturating_mul(to - from);
    len.min(from.saturating_add(turns))
}
