// What an entry brings, and whether it stays.
ghost use Rattle.std.specs.Prelude.{◌≡◌};
ghost use Rattle.notation.specs.declared.Entry.TheVariants.{Finish};
ghost use Rattle.moir_text_machine.specs.Turned.{brought_by, words_brought, stays_in};

use llsc::ProcessNumber;
use moir_model::Process;
use moir_rows::ranges;
use notation::Entry;

// "The value k has k in all W words": the number of a start of SC; no other entry brings any words.
pub fn value_of(e: Entry) -> Option<u64>
    ensures { result ≡ brought_by e }
{
    match e {
        Entry::StartSc(_, k) => Some(k),
        _ => None,
    }
}

// As many words as it brings.
pub fn words_of(e: Entry, w: usize) -> usize
    ensures { result ≡ words_brought e w }
{
    match e {
        Entry::StartSc(_, _) => w,
        _ => 0,
    }
}

// Whether a process has an open call; another number than that of a record has none.
fn busy(p: u64, all: [Process; 16]) -> bool
    ensures { result ≡ stays_in (Finish p) all }
{
    p <= 15 && !ranges::is_idle(all[ProcessNumber(p as u8).record_place()])
}

// "`!` is steps until the call answers": whether the entry is not over with a step that leaves these records.
pub fn stays(e: Entry, all: [Process; 16]) -> bool
    ensures { result ≡ stays_in e all }
{
    match e {
        Entry::Finish(p) => busy(p, all),
        _ => false,
    }
}
