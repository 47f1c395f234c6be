// The causes that a station adds or reads anew: rows 23, 24, and what rows 3 and 7 look at.
ghost use Rattle.std.specs.Prelude.{◌≡◌};
ghost use Rattle.station.specs.Station.{station_words};
ghost use Rattle.station.specs.StationRefusals.{row23, row24, record_about, answered_for};
ghost use Rattle.station_rows.specs.Ordered.{order_in, number_in};

use crate::commands::Ordered;
use crate::sizes::Sizes;
use station::StationProcess;

pub const MOST_RECORDS: usize = 8;

// The words that a station needs.
pub fn station_words(sizes: Sizes) -> usize
    ensures { result ≡ station_words sizes.n sizes.w sizes.r }
{
    (3 * sizes.r + 2) * sizes.n * sizes.w
}

// Row 23.
pub fn r_out_of_range(r: usize) -> bool
    ensures { result ≡ (row23 r).holds }
{
    r < 1 || r > MOST_RECORDS
}

// Row 24. Only a start names a record.
pub fn no_such_record(order: Ordered, r: usize) -> bool
    ensures { result ≡ (row24 (order_in order) r (number_in order)).holds }
{
    order.named().is_some_and(|named| r <= named)
}

// The number of the record that a command is about: a start's own, a step's that of the open call.
pub fn record_about(order: Ordered, q: StationProcess) -> usize
    ensures { result ≡ (record_about (order_in order) (number_in order) q).0 }
{
    order.named().unwrap_or(q.called.0 as usize)
}

// Whether an LL was answered of the record that a command is about, as row 7 asks.
pub fn answered_for(order: Ordered, q: StationProcess) -> bool
    ensures { result ≡ answered_for (order_in order) (number_in order) q }
{
    let about = record_about(order, q);
    q.holdings
        .get(about)
        .copied()
        .unwrap_or(station::empty_holding())
        .answered
}
