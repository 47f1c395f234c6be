// Replies as numbers.
ghost use Rattle.std.specs.Prelude.{◌≡◌, ◌<◌, ◌≤◌, false};
ghost use Rattle.moir_held_model.specs.Told.{told_with, told};

use llsc::ProcessNumber;
use moir_held_model::Told;
use moir_held_rows::layout;
use moir_model::Reply;
use moir_steps::word_places::Row;

// A reply that shows no words.
fn plain(number: u8, kind: u8, truth: bool, named: u8, count: usize) -> Told
    ensures { result ≡ told_with number kind truth named count }
{
    Told {
        number,
        kind,
        truth,
        named,
        count,
        at: 0,
        words: 0,
    }
}

// A refusal, with its number.
pub fn refused(number: u8) -> Told
    ensures { result ≡ told_with number 0 false 0 0 }
{
    plain(number, 0, false, 0, 0)
}

// What the reply to process p tells.
pub fn told(n: usize, w: usize, p: ProcessNumber, reply: Reply) -> Told
    requires { (n ≤ 16) × ((w ≤ 64) × (p.0 < 16)) }
    ensures { result ≡ told n w p.0 reply }
{
    match reply {
        Reply::Refused(number) => refused(number),
        Reply::Accepted => plain(0, 0, false, 0, 0),
        Reply::WllAnswered(count) => Told {
            number: 0,
            kind: 1,
            truth: false,
            named: 0,
            count,
            at: layout::WORDS + Row::Returned(p).word(n, w, 0),
            words: w,
        },
        Reply::WllNamed(q, count) => plain(0, 4, false, q.0, count),
        Reply::ScAnswered(truth, count) => plain(0, 2, truth, 0, count),
        Reply::VlAnswered(truth, count) => plain(0, 3, truth, 0, count),
    }
}
