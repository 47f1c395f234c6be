// A refusal while the entries are carried out: the entry, its item and place, and the state of its process.
use crate::calls::{Method, Told};
use crate::pieces::{NONE, Piece};
use crate::{Ended, Left, open_calls, shown};
use llsc::refusals::Refusal;
use positions::Sizes;
use saying::Place;

// The entry, and its item, which stands at the place: the pieces of "refused 6: entry 138, item 0. at 5:14: ".
pub(crate) fn entry(refusal: Refusal, ended: Ended<'_>, place: usize) -> [Piece<'_>; 12] {
    let (before, rest) = ended.text.split_at(saying::within(place, ended.text));
    let item = &rest[..saying::within(shown::item(rest), rest)];
    let place = Place::after(positions::look(before));
    [
        Piece::Text(b"refused "),
        Piece::Number(refusal.number() as u64),
        Piece::Text(b": entry "),
        Piece::Number(ended.entries.saturating_add(1) as u64),
        Piece::Text(b", item "),
        Piece::Text(item),
        Piece::Text(b" at "),
        Piece::Number(place.line as u64),
        Piece::Text(b":"),
        Piece::Number(place.column as u64),
        Piece::Text(b": "),
        Piece::Text(b""),
    ]
}

// Why the entry of this process is refused.
pub(crate) fn why(
    refusal: Refusal,
    process: u64,
    sizes: Sizes,
    left: &Left,
) -> [Piece<'static>; 6] {
    let [a, b, c, d] = state(process, sizes, left);
    let (limit, more) = limit_and_more(refusal);
    [
        Piece::Text(limit.as_bytes()),
        a,
        b,
        c,
        d,
        Piece::Text(more.as_bytes()),
    ]
}

// What stands before the state of the process, of the refusals that are no fault of it; and what stands after it.
fn limit_and_more(refusal: Refusal) -> (&'static str, &'static str) {
    match refusal {
        Refusal::TooMuch => ("60,000 entries are done, which is the most; ", "\n"),
        Refusal::NoRoom => ("there is no room for another line; ", "\n"),
        Refusal::NeverLinked => ("", ", and no LL of it was ever answered\n"),
        _ => ("", "\n"),
    }
}

// The state of the process that the entry named. A number above 15 is reported as 16; the item shows it.
fn state(process: u64, sizes: Sizes, left: &Left) -> [Piece<'static>; 4] {
    let Sizes { n, w } = sizes;
    if process > 15 {
        return [
            Piece::Text(b"its process number is above 15, and so not below N, which is "),
            Piece::Number(n),
            NONE,
            NONE,
        ];
    }
    let (state, more) = if process >= n {
        (&b" is not below N, which is "[..], Piece::Number(n))
    } else {
        call_of(process, w, left)
    };
    [
        Piece::Text(b"process "),
        Piece::Number(process),
        Piece::Text(state),
        more,
    ]
}

// Whether the process is idle or busy, with its call.
fn call_of(process: u64, w: u64, left: &Left) -> (&'static [u8], Piece<'static>) {
    match open_calls::call_at(process, &left.calls) {
        None => (b" is idle", NONE),
        Some(call) => {
            let figure = left.figure;
            let method = Method { figure, w };
            (b" is busy: ", Piece::Call(Told { call, method }))
        }
    }
}
