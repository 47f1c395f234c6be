// What a trace shows of a step, put into lent bytes by a writer.
ghost use Rattle.access.specs.TraceLines.{access_text};

use crate::{Access, texts};
use listing::Writer;
use trace_parts::Shown;

impl Shown for Access {
    ghost shown = { access_text };

    #[tactic(auto, unfolding(crate::specs::TraceLines::access_text), using(listing::proofs::WritingLaws::writes_then))]
    fn show(self, to: &mut Writer<'_>) {
        trace_parts::spaced(to, u64::from(self.line));
        texts::item(to, self.act.item());
        texts::act(to, self.act);
    }
}
