// Small schedules (02, CR 5) for C: to C a schedule is the bytes of its turns.
ghost use Rattle.std.specs.Prelude.{◌≡◌, ◌≤◌, length};
ghost use Rattle.enumeration.specs.Replies.{found_for, numbered_for, following_for};
ghost use Rattle.besklaun.specs.TurnBytes.{written, schedule_into, number_told, after_into};

use enumeration::Schedule;

// The number of the refusal, 0 for none, and the count of the turns.
// Kept: no enum crosses to C.
#[repr(C)]
#[derive(Clone, Copy)]
pub struct FoundTurns {
    pub refusal: u8,
    pub count: usize,
}

// The number of the refusal, 0 for none, and the schedule's own.
// Kept: no enum crosses to C.
#[repr(C)]
#[derive(Clone, Copy)]
pub struct TurnsNumber {
    pub refusal: u8,
    pub number: u64,
}

// The number of the refusal, 0 for none, and whether the schedule was the last.
// Kept: no enum crosses to C.
#[repr(C)]
#[derive(Clone, Copy)]
pub struct TurnsAfter {
    pub refusal: u8,
    pub last: bool,
}

fn write(schedule: Schedule, turns: &mut [u8])
    requires { schedule.count ≤ length schedule.turns }
    ensures { turns.new ≡ written schedule turns.old }
{
    let count = schedule.count;
    if count <= turns.len() {
        turns[..count].copy_from_slice(&schedule.turns[..count]);
    }
}

// The schedule for a number, in the bytes lent.
// Kept: a, b and the number or the turns one by one, as the C library's header declares them.
// Wrong programs that this rules out: one that writes a part of the turns where the bytes are too few; one that blanks
// the bytes behind them.
#[tactic(auto, using(enumeration::proofs::CountLaws::found_counted))]
pub fn besklaun_schedule_for(a: usize, b: usize, number: u64, turns: &mut [u8]) -> FoundTurns
    ensures { (result, turns.new) ≡ schedule_into (found_for a b number) turns.old }
{
    match enumeration::schedule_for(a, b, number) {
        Ok(schedule) => {
            write(schedule, turns);
            FoundTurns {
                refusal: 0,
                count: schedule.count,
            }
        }
        Err(refusal) => FoundTurns {
            refusal: refusal.number(),
            count: 0,
        },
    }
}

// The number for a schedule.
// Kept: a, b and the turns one by one, as the C library's header declares them.
pub fn besklaun_number_for(a: usize, b: usize, turns: &[u8]) -> TurnsNumber
    ensures { result ≡ number_told (numbered_for a b turns.now) }
{
    match enumeration::number_for(a, b, turns) {
        Ok(number) => TurnsNumber { refusal: 0, number },
        Err(refusal) => TurnsNumber {
            refusal: refusal.number(),
            number: 0,
        },
    }
}

// The schedule after the one in the bytes lent, in its place.
// Kept: a, b and the turns one by one, as the C library's header declares them.
// Wrong program that this rules out: one that changes the turns of the last schedule.
#[tactic(auto, using(enumeration::proofs::CountLaws::following_counted))]
pub fn besklaun_schedule_after(a: usize, b: usize, turns: &mut [u8]) -> TurnsAfter
    ensures { (result, turns.new) ≡ after_into (following_for a b turns.old) turns.old }
{
    match enumeration::schedule_after(a, b, turns) {
        Ok(Some(schedule)) => {
            write(schedule, turns);
            TurnsAfter {
                refusal: 0,
                last: false,
            }
        }
        Ok(None) => TurnsAfter {
            refusal: 0,
            last: true,
        },
        Err(refusal) => TurnsAfter {
            refusal: refusal.number(),
            last: false,
        },
    }
}
