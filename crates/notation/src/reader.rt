// A text that is read from the front. A reader that finds no right thing stands at the byte (or at the text's end) that
// is in the way.
ghost use Rattle.std.specs.Prelude.{◌≡◌, ◌≤◌, length};
ghost use Rattle.notation.specs.Grammar.{largest, digit_ok, count_ok};

use crate::{Entry, Follow, Kind, Start, class, entry_of};

// The text, and the place up to which it is read.
// Kept: the text and a place, not the rest of it: an entry keeps its item's place, and a fault tells its own.
#[derive(Drop)]
pub struct Reader<'a> {
    pub text: &'a [u8],
    pub at: usize,
    pub ghost inside: { at ≤ length text.now },
}

// Whether the digit d may follow digits that make a value: no digit follows a leading zero, and the number must fit.
fn may_follow(value: u64, d: u64) -> bool
    requires { (value ≤ largest) × (d ≤ 9) }
    ensures { result ≡ digit_ok value d }
{
    value != 0 && value * 10 + d <= 4294967295
}

// Whether a group may have so many turns.
fn is_count(n: u64) -> bool
    ensures { result ≡ count_ok n }
{
    matches!(n, 1..=255)
}

impl<'a> Reader<'a> {
    ghost use Rattle.notation.specs.Readers.{NumberSays, NumberAtSays, FieldSays, BeginSays, Follows};
    ghost use Rattle.notation.specs.Cursor.{KindAt, DigitAt, ReadsAs, Passes};

    // What the next byte is; nothing at the end.
    fn kind(&self) -> Option<Kind>
        ensures { KindAt self.now.text.now self.now.at result }
    {
        if self.text.len() <= self.at {
            return None;
        }
        Some(class(self.text[self.at]))
    }

    // The digit that is next, if one is.
    fn digit(&self) -> Option<u64>
        ensures { DigitAt self.now.text.now self.now.at result }
    {
        match self.kind()? {
            Kind::Digit(d) => Some(d),
            _ => None,
        }
    }

    // The digits from here on, after digits that make v.
    #[tactic(auto, using(crate::proofs::ReaderLaws::digits_laws))]
    fn digits(&mut self, v: u64) -> Option<u64>
        requires { v ≤ largest }
        ensures { ReadsAs (λ s at o. NumberSays s at v o) self.old self.new result }
    {
        let mut value = v;
        while let Some(d) = self.digit() {
            if !may_follow(value, d) {
                return None;
            }
            value = value * 10 + d;
            self.at += 1;
        }
        Some(value)
    }

    // The number that begins here.
    #[tactic(auto, using(crate::proofs::KindLaws::digit_small, crate::proofs::HeaderLaws::number_whole, crate::proofs::ReaderLaws::no_number))]
    fn number(&mut self) -> Option<u64>
        ensures { ReadsAs NumberAtSays self.old self.new result }
    {
        let d = self.digit()?;
        self.at += 1;
        self.digits(d)
    }

    // A number and the one byte that ends it.
    #[tactic(auto, using(crate::proofs::ReaderLaws::field_none, crate::proofs::ReaderLaws::field_cut, crate::proofs::ReaderLaws::field_other))]
    pub fn field(&mut self, stop: u8) -> Option<u64>
        ensures { ReadsAs (λ s at o. FieldSays s at stop o) self.old self.new result }
    {
        let v = self.number()?;
        if self.text.len() <= self.at || self.text[self.at] != stop {
            return None;
        }
        self.at += 1;
        Some(v)
    }

    // Goes on to the first byte that is no gap.
    #[tactic(auto, using(crate::proofs::ReaderLaws::gaps_none, crate::proofs::ReaderLaws::gaps_more))]
    pub fn skip(&mut self)
        ensures { Passes self.old self.new }
    {
        while let Some(Kind::Gap) = self.kind() {
            self.at += 1;
        }
    }

    // An item up to its end, or to the `(` of a group.
    #[tactic(auto, using(crate::proofs::ReaderLaws::begin_laws))]
    pub fn begin(&mut self) -> Option<Start>
        ensures { ReadsAs BeginSays self.old self.new result }
    {
        let v = self.number()?;
        let sign = self.kind()?;
        match sign {
            Kind::Marked(m) => {
                self.at += 1;
                Some(Start::Single(entry_of(m, v)))
            }
            Kind::Offer => {
                self.at += 1;
                let k = self.number()?;
                Some(Start::Single(Entry::StartSc(v, k)))
            }
            Kind::Open => {
                if !is_count(v) {
                    return None;
                }
                self.at += 1;
                Some(Start::Group(v))
            }
            _ => None,
        }
    }

    // What follows an item. Only behind a gap may another begin.
    #[tactic(auto, using(crate::proofs::ReaderLaws::after_laws))]
    pub fn after(&mut self) -> Option<Follow>
        ensures { ReadsAs Follows self.old self.new result }
    {
        let end = self.at;
        self.skip();
        let Some(next) = self.kind() else {
            return Some(Follow::End);
        };
        match next {
            Kind::Close => {
                self.at += 1;
                Some(Follow::Shut)
            }
            Kind::Digit(_) => {
                if self.at == end {
                    return None;
                }
                Some(Follow::Item)
            }
            _ => None,
        }
    }
}
