// The calls of a log, looked through: one loop for every test of a call, and one for each two calls.
ghost use Rattle.std.specs.Prelude.{◌≡◌, Bool, ◌≤◌, ◌<◌, ◌*◌, ◌/◌, ◌%◌, length, drop};
ghost use Rattle.verdicts.specs.Log.{width, entries};
ghost use Rattle.verdicts.specs.Reasons.{two_at_fault};
ghost use Rattle.judging.specs.declared.heads.Head.{Head};
ghost use Rattle.judging.specs.Orders.{Fits};
ghost use Rattle.judging.specs.Heads.{head, entry_at, left_over, first_from, lacks_ll, first_unled, Decides, DecidesTwo};

use crate::heads;
use crate::heads::Head;

// The calls of a log, one after the other: rows of 6 + W numbers. What is left over at its end is no call.
#[derive(Clone, Copy)]
pub struct Calls<'a> {
    pub log: &'a [u64],
    pub w: usize,
    pub ghost narrow: { w ≤ 64 },
}

// The calls of a log that no cause refuses: at most 512, of processes below 16.
#[derive(Clone, Copy)]
pub struct Admitted<'a> {
    pub calls: Calls<'a>,
    pub ghost fits: { Fits calls.w calls.log.now },
}

impl<'a> Calls<'a> {
    // How many numbers a call has.
    fn width(&self) -> usize
        ensures { result ≡ width self.now.w }
    {
        6 + self.w
    }

    pub fn len(&self) -> usize
        ensures { result ≡ length self.now.log.now / width self.now.w }
    {
        self.log.len() / self.width()
    }

    // The numbers from the call of an index on; from behind the last call on they are what is left over.
    fn numbers_from(&self, k: usize) -> &'a [u64]
        requires { k ≤ length self.now.log.now / width self.now.w }
        ensures { result.now ≡ drop (k * width self.now.w) self.now.log.now }
    {
        &self.log[k * self.width()..]
    }

    // The numbers of a call that is cut off.
    pub(crate) fn left_over(&self) -> &'a [u64]
        ensures value { result.now ≡ left_over self.now.w self.now.log.now }
        ensures long { length result.now ≡ length self.now.log.now % width self.now.w }
    {
        self.numbers_from(self.len())
    }

    // The call of an index, without its words.
    // Kept: `k < count` is asked where an index comes in: an index of its own type would have to hold the log it is of.
    pub fn head(&self, k: usize) -> Head
        requires { k < length self.now.log.now / width self.now.w }
        ensures { result ≡ head (entry_at self.now.w self.now.log.now k) }
    {
        heads::head_of(self.numbers_from(k))
    }

    pub fn words(&self, k: usize) -> &'a [u64]
        requires { k < length self.now.log.now / width self.now.w }
        ensures { result.now ≡ (entry_at self.now.w self.now.log.now k).words }
    {
        &self.numbers_from(k)[6..self.width()]
    }

    // The first call that passes a test, of those from an index on.
    // Kept: tried by `find`: its closure, which calls `head` and a test handed in, would need a `requires` of its own.
    #[tactic(auto, using(crate::proofs::CallLoops::first_laws))]
    pub fn first<F: Fn(Head) -> bool>(&self, from: usize, passes: F) -> Option<usize>
        requires { F.IsAlwaysCallable passes }
        ensures { (f : Head → Bool) → Decides (F.post passes) f
            → result ≡ first_from (λ e. f (head e)) from (drop from (entries self.now.w self.now.log.now)) }
    {
        for k in from..self.len() {
            if passes(self.head(k)) {
                return Some(k);
            }
        }
        None
    }

    // The first call that can't stand beside a later one, and the first of those.
    #[tactic(auto, using(crate::proofs::CallLoops::two_end))]
    pub fn first_two<F: Fn(Head, Head) -> bool>(&self, clash: F) -> Option<(usize, usize)>
        requires { F.IsAlwaysCallable clash }
        ensures { (r : Head → Head → Bool) → DecidesTwo (F.post clash) r
            → result ≡ two_at_fault (λ e f. r (head e) (head f)) 0 (entries self.now.w self.now.log.now) }
    {
        for k in 0..self.len() {
            let e = self.head(k);
            if let Some(other) = self.first(k + 1, |f| clash(e, f)) {
                return Some((k, other));
            }
        }
        None
    }

    // Whether a call is an SC or VL with no LL of its process before it.
    fn lacks_ll(&self, e: Head) -> bool
        ensures { result ≡ lacks_ll (entries self.now.w self.now.log.now) e }
    {
        e.kind != heads::LL && self.first(0, |f| e.led_by(f)).is_none()
    }

    pub fn first_unled(&self) -> Option<usize>
        ensures { result ≡ first_unled (entries self.now.w self.now.log.now) }
    {
        self.first(0, |e| self.lacks_ll(e))
    }
}

impl Admitted<'_> {
    // The call of an index, without its words: its process has one of sixteen links.
    #[tactic(auto, using(crate::proofs::ObjectLaws::low_process))]
    pub(crate) fn head(&self, k: usize) -> Head
        requires { k < length self.now.calls.log.now / width self.now.calls.w }
        ensures value { result ≡ head (entry_at self.now.calls.w self.now.calls.log.now k) }
        ensures linked { result.process < 16 }
    {
        self.calls.head(k)
    }
}
