// An entry and the place of its item as one number.
// Kept: 8 bytes and no struct of an entry and a place: 60,001 of these stand in a caller's own memory (no heap).
ghost use Rattle.std.specs.Prelude.{◌≡◌, ◌≤◌, ◌<◌};
ghost use Rattle.notation.specs.EntryWords.{kept_process, kept_entry, entry_of_kind, entry_in, place_unit, largest_place, place_in};
ghost use Rattle.notation.specs.Grammar.{largest};
ghost use Rattle.notation.specs.Stretches.{Small};

use crate::Entry;

// Where the process, the number after `s` and the place begin in a word, and how many values the first two can have.
const PROCESS_UNIT: u64 = 8;

const PROCESS_VALUES: u64 = 32;

const NUMBER_UNIT: u64 = 256;

const NUMBER_VALUES: u64 = 4294967296;

const PLACE_UNIT: u64 = 1099511627776;

// A process number as it is kept.
fn kept_process(p: u64) -> u64
    ensures { result ≡ kept_process p }
{
    p.min(16)
}

// A kind, a process and a number in one.
#[tactic(auto, using(crate::proofs::WordLaws::kept_small, crate::proofs::WordLaws::packed_reads, crate::proofs::WordLaws::packed_below))]
fn packed(kind: u64, p: u64, k: u64) -> u64
    requires { (kind ≤ 4) × (k ≤ largest) }
    ensures { (entry_in result ≡ entry_of_kind kind (kept_process p) k) × (result < place_unit) }
{
    let process = kept_process(p);
    kind + PROCESS_UNIT * process + NUMBER_UNIT * k
}

// An entry as a number.
pub fn word_of(e: Entry) -> u64
    requires { Small e }
    ensures { (entry_in result ≡ kept_entry e) × (result < place_unit) }
{
    // Kept: no switch between functions: it gives each kind its number, and zero for the number that only an SC has.
    match e {
        Entry::StartLl(p) => packed(0, p, 0),
        Entry::StartVl(p) => packed(1, p, 0),
        Entry::StartSc(p, k) => packed(2, p, k),
        Entry::Step(p) => packed(3, p, 0),
        Entry::Finish(p) => packed(4, p, 0),
    }
}

// The place of an entry's item beside the entry.
#[tactic(auto, using(crate::proofs::WordLaws::entry_beside, crate::proofs::WordLaws::place_beside))]
pub fn with_place(word: u64, place: usize) -> u64
    requires { (word < place_unit) × (place ≤ largest_place) }
    ensures { (entry_in result ≡ entry_in word) × (place_in result ≡ place) }
{
    word + PLACE_UNIT * (place as u64)
}

// The entry that a number of the list keeps.
#[tactic(auto, unfolding(crate::specs::EntryWords::entry_in))]
pub fn entry_in(word: u64) -> Entry
    ensures { result ≡ entry_in word }
{
    let kind = word % PROCESS_UNIT;
    let p = word / PROCESS_UNIT % PROCESS_VALUES;
    match kind {
        0 => Entry::StartLl(p),
        1 => Entry::StartVl(p),
        2 => Entry::StartSc(p, word / NUMBER_UNIT % NUMBER_VALUES),
        3 => Entry::Step(p),
        _ => Entry::Finish(p),
    }
}

// The place of its item in the text.
pub fn item_place(word: u64) -> usize
    ensures { result ≡ place_in word }
{
    (word / PLACE_UNIT) as usize
}
