// What a trace shows of an access, put into lent bytes by a writer.
ghost use Rattle.moir_access.specs.TraceParts.{access_text};

use crate::{Access, texts};
use listing::Writer;
use trace_parts::Shown;

impl Shown for Access {
    ghost shown = { access_text };

    #[tactic(auto, unfolding(crate::specs::TraceParts::access_text), using(listing::proofs::WritingLaws::writes_then))]
    fn show(self, to: &mut Writer<'_>) {
        trace_parts::spaced(to, u64::from(self.line));
        texts::item(to, self.item);
        texts::act(to, self.act);
    }
}
