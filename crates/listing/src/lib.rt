// The lines of a listing, put into lent bytes by their `Writer`. All functions are inner: the text run is made of them.

#![tactic(auto)]

ghost use Rattle.std.specs.Prelude.{◌≡◌, [], ◌∷◌};
ghost use Rattle.listing.specs.Decimal.{decimal};
ghost use Rattle.listing.specs.Lines.{answer_head, words_of, ll_line, truth_line, end_line, refused_line};
ghost use Rattle.listing.specs.Writing.{Fits, Writes};

// The largest number of 64 bits has so many digits.
const MOST_DIGITS: usize = 20;

// Lent bytes that are written from the front on, and how many of them are written: the place of the next.
// Kept: the bytes and how many are written: a reply tells that number, which the rest alone would not.
#[derive(Drop)]
pub struct Writer<'a> {
    pub list: &'a mut [u8],
    pub written: usize,
}

impl<'a> Writer<'a> {
    // One byte.
    pub fn put(&mut self, b: u8)
        requires { Fits self.old (b ∷ []) }
        ensures { Writes self.old (b ∷ []) self.new }
    {
        self.list[self.written] = b;
        self.written += 1;
    }

    // Bytes as they stand.
    #[tactic(auto, using(crate::proofs::WritingLaws::copied, crate::proofs::WritingLaws::written))]
    pub fn plain(&mut self, bytes: &[u8])
        requires { Fits self.old bytes.now }
        ensures { Writes self.old bytes.now self.new }
    {
        let next = self.written + bytes.len();
        self.list[self.written..next].copy_from_slice(bytes);
        self.written = next;
    }

    // A number in decimal: one division for each digit, the last digit first, and then the digits copied.
    // Kept: 02, CR 6 asks for one division for each digit; crate itoa divides otherwise.
    #[tactic(auto, using(crate::proofs::WritingLaws::writes_same, crate::proofs::FilledLaws::filled_all))]
    pub fn number(&mut self, n: u64)
        requires { Fits self.old (decimal n) }
        ensures { Writes self.old (decimal n) self.new }
    {
        let mut places = [b'0'; MOST_DIGITS];
        let mut rest = n;
        let mut divisions = 0;
        loop {
            let tenth = rest / 10;
            divisions += 1;
            places[MOST_DIGITS - divisions] = b'0' + (rest - tenth * 10) as u8;
            rest = tenth;
            if rest == 0 {
                break;
            }
        }
        self.plain(&places[MOST_DIGITS - divisions..]);
    }

    // A space and a number for each word.
    #[tactic(auto, unfolding(crate::specs::Lines::words_of), using(crate::proofs::LineLaws::writing_words))]
    pub fn words(&mut self, ws: &[u64])
        requires { Fits self.old (words_of ws.now) }
        ensures { Writes self.old (words_of ws.now) self.new }
    {
        for word in ws {
            self.put(b' ');
            self.number(*word);
        }
    }

    // The part of an answer line that all kinds share: process, letter and count.
    #[tactic(auto, unfolding(crate::specs::Lines::answer_head), using(crate::proofs::WritingLaws::writes_then))]
    pub fn answer_head(&mut self, process: u64, letter: u8, count: u64)
        requires { Fits self.old (answer_head process letter count) }
        ensures { Writes self.old (answer_head process letter count) self.new }
    {
        self.number(process);
        self.put(b' ');
        self.put(letter);
        self.put(b' ');
        self.number(count);
    }

    // The line of an LL's answer.
    #[tactic(auto, unfolding(crate::specs::Lines::ll_line), using(crate::proofs::WritingLaws::writes_then))]
    pub fn ll_line(&mut self, process: u64, count: u64, ws: &[u64])
        requires { Fits self.old (ll_line process count ws.now) }
        ensures { Writes self.old (ll_line process count ws.now) self.new }
    {
        self.answer_head(process, b'L', count);
        self.words(ws);
        self.put(b'\n');
    }

    // The line of an SC's or a VL's answer, with the letter of its kind.
    #[tactic(auto, unfolding(crate::specs::Lines::truth_line), using(crate::proofs::WritingLaws::writes_then))]
    pub fn truth_line(&mut self, process: u64, letter: u8, count: u64, answer: bool)
        requires { Fits self.old (truth_line process letter count answer) }
        ensures { Writes self.old (truth_line process letter count answer) self.new }
    {
        self.answer_head(process, letter, count);
        if answer {
            self.plain(b" 1\n");
        } else {
            self.plain(b" 0\n");
        }
    }

    // The last line of a run that met no refusal.
    #[tactic(auto, unfolding(crate::specs::Lines::end_line), using(crate::proofs::WritingLaws::writes_then))]
    pub fn end_line(&mut self, entries: u64)
        requires { Fits self.old (end_line entries) }
        ensures { Writes self.old (end_line entries) self.new }
    {
        self.plain(b"end ");
        self.number(entries);
        self.put(b'\n');
    }

    // The last line of a refused run.
    #[tactic(auto, unfolding(crate::specs::Lines::refused_line))]
    pub fn refused_line(&mut self, refusal: u64, entries: u64)
        requires { Fits self.old (refused_line refusal entries) }
        ensures { Writes self.old (refused_line refusal entries) self.new }
    {
        self.plain(b"refused ");
        self.number(refusal);
        self.put(b' ');
        self.number(entries);
        self.put(b'\n');
    }
}
