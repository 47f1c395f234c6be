// A trace with its marks (02, CR 13) for C.
ghost use Rattle.std.specs.Prelude.{◌≡◌};
ghost use Rattle.besklaun.specs.MarkedTraces.{mark_told};

use marking::output;

// The trace with two columns before each line, into the bytes lent; what does not fit is not written. The reply is the
// length of the marked trace.
// Wrong programs that this rules out: one that marks the line before in place of the line; one that blanks the bytes
// behind.
pub fn besklaun_mark_trace(trace: &[u8], marked: &mut [u8]) -> usize
    ensures { (result, marked.new) ≡ mark_told trace.now marked.old }
{
    if trace.len() > 4294967295 {
        return 0;
    }
    output::mark_lines(trace, marked)
}
