// An order that no row refuses, obeyed on the numbers: what it could touch is read, and what it left written back.
ghost use Rattle.std.specs.Prelude.{◌≡◌};
ghost use Rattle.station.specs.Station.{process_at};
ghost use Rattle.station.specs.Projection.{embed};
ghost use Rattle.station.specs.StationRefusals.{record_about};
ghost use Rattle.station.specs.StationCommand.{obeyed_on};
ghost use Rattle.held_model.specs.Memory.{memory_of};
ghost use Rattle.held_model.specs.HeldCommand.{MarksAfter};
ghost use Rattle.held_rows.specs.ListRows.{about, Admits};
ghost use Rattle.held_machine.specs.Writes.{taken_from, PlacesThere};

use crate::{orders, writes};
use held_rows::{layout, reads, table};
use llsc::{Order, ProcessNumber};
use model::Reply;
use station::RecordNumber;
use station_rows::sizes::Sizes;
use taken::Taken;

// X of record j, and the places whose numbers begin at `bank` and `help`.
#[inline(always)]
fn places_at(held: &[u64], j: RecordNumber, bank: usize, help: usize) -> Taken
    requires { PlacesThere held.now j.0 bank help }
    ensures { result ≡ taken_from held.now j.0 bank help }
{
    taken::places(
        reads::x_at(held, layout::record_place(j)),
        reads::bank_at(held, bank),
        reads::help_at(held, help),
    )
}

#[inline(always)]
pub fn obey(held: &mut [u64], p: usize, order: Order, named: usize, value: &[u64]) -> Reply
    requires { Admits held.old p order named value.now }
    ensures done { (result, memory_of held.new) ≡ embed (memory_of held.old) (record_about order named (process_at (memory_of held.old) p)) p
        (obeyed_on (memory_of held.old) (record_about order named (process_at (memory_of held.old) p))
        (record { process = p; order = order; called = named; value = value.now })) }
    ensures marks { MarksAfter held.old held.new p (about held.old p order named) }
{
    let lent = table::sizes(held);
    let Sizes { n, r, .. } = lent;
    let me = ProcessNumber(p as u8);
    let j = RecordNumber(table::record_about(held, order, named, me) as u8);
    let process = reads::process_at(held, j, me);
    let bank = layout::bank_place(j, taken::bank_index(n, process));
    let help = layout::help_place(j, taken::help_index(n, me, process));
    let places = places_at(held, j, bank, help);
    let rows = orders::rows_of(lent, j);
    let at = layout::words_place(r);
    let stepped = orders::carried_in(rows, order, n, me, process, places, value, held, at);
    writes::write_back(held, j, me, bank, help, stepped);
    stepped.reply
}
