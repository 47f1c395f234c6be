// The state that the first entries of a text leave.
ghost use Rattle.held_texts.specs.HeldRuns.{RanFirst};

use crate::running::Left;
use text_runs::runs::Finished;
use whole_runs::texts;

// The list is set up for the text's N and W and one record, and the first `entries` entries are carried out, or as many as
// come before the text's end or a refusal.
pub fn after_text(text: &[u8], entries: usize, held: &mut [u64]) -> Finished<Left>
    ensures { RanFirst entries held.old text.now result held.new }
{
    let mut listing = [0; 744];
    texts::run_text(Left { left: entries }, false, held, text, &mut listing)
}
