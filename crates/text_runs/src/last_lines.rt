// The last line of a text run.
ghost use Rattle.listing.specs.Writing.{Fits, Writes};
ghost use Rattle.llsc.specs.Refusals.{number_told};
ghost use Rattle.text_runs.specs.Parts.{last_text};

use listing::Writer;
use llsc::refusals::Refusal;

// "The last line is `end E` or `refused C E`".
pub fn write(outcome: Result<(), Refusal>, entries: usize, to: &mut Writer<'_>)
    requires { Fits to.old (last_text (number_told outcome) entries) }
    ensures { Writes to.old (last_text (number_told outcome) entries) to.new }
{
    let done = entries as u64;
    match outcome {
        Ok(()) => to.end_line(done),
        Err(refusal) => to.refused_line(refusal.number() as u64, done),
    }
}
