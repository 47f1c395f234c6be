// The holders of a record's buffers, told in a lent list.
ghost use Rattle.std.specs.Prelude.{◌≡◌, ◌+◌, ◌*◌, ◌<◌, ◌≤◌, length};
ghost use Rattle.llsc.specs.Refusals.{number_told};
ghost use Rattle.station.specs.StationRefusals.{station_in_range};
ghost use Rattle.held_model.specs.Layout.{words_place};
ghost use Rattle.held_model.specs.Memory.{number_at, memory_of};
ghost use Rattle.held_rows.specs.ListRows.{LentList};
ghost use Rattle.held_buffers.specs.Places.{holders, holders_refusal, HoldersTold};
ghost use Rattle.held_buffers.specs.HoldersRead.{held_from, holders_late_number, Noted, Tellable, HoldersNoted};

use crate::holders;
use held_rows::{table, whole};
use llsc::counts::Processes;
use llsc::refusals::Refusal;
use model::sizes;
use station::RecordNumber;
use station_rows::sizes::Sizes;

// For each of record j's 3N buffers its holder, and 3N where none has it.
fn note(held: &[u64], count: Processes, j: RecordNumber, places: &mut [u64])
    requires { Noted held.now count.n j.0 places.old }
    ensures { places.new ≡ holders (held_from held.now count.n j.0) (3 * count.n) (3 * count.n) }
{
    let buffers = sizes::buffers(count);
    places.fill(buffers as u64);
    for k in 0..buffers {
        places[holders::buffer_held(held, count, j, k) as usize] = k as u64;
    }
}

// The same at the beginning of a list that is long enough.
fn note_in(held: &[u64], on: usize, out: &mut [u64])
    requires { Tellable held.now on out.old }
    ensures { HoldersNoted held.now on out.old out.new }
{
    let Sizes { n, .. } = table::sizes(held);
    let count = Processes { n };
    note(
        held,
        count,
        RecordNumber(on as u8),
        &mut out[..sizes::buffers(count)],
    );
}

// Row 3 for the list lent, row 9, row 24.
fn late_refusal(held: &[u64], on: usize, room: usize) -> Result<(), Refusal>
    requires { LentList held.now }
    ensures { number_told result ≡ holders_late_number held.now on room }
{
    let Sizes { n, r, .. } = table::sizes(held);
    Refusal::TooLittleLent.if_holds(room < sizes::buffers(Processes { n }))?;
    Refusal::NumberOutOfRange.if_holds(!whole::in_range(held))?;
    Refusal::NoSuchRecord.if_holds(r <= on)
}

// The first row that holds.
fn refusal(held: &[u64], on: usize, room: usize) -> Result<(), Refusal>
    ensures { number_told result ≡ holders_refusal (memory_of held.now) on room }
{
    match table::lent_refusal(held) {
        Ok(()) => late_refusal(held, on, room),
        Err(refusal) => Err(refusal),
    }
}

// Where each buffer of a record is: the number of the refusal, 0 for none. At place b of the list lent for it stands i
// where buffer b is kept at the sequence number i, and 2N + p where process p owns it.
pub fn tell(held: &[u64], on: usize, out: &mut [u64]) -> u8
    ensures { HoldersTold held.now on out.old result out.new }
{
    match refusal(held, on, out.len()) {
        Ok(()) => {
            note_in(held, on, out);
            0
        }
        Err(refusal) => refusal.number(),
    }
}
