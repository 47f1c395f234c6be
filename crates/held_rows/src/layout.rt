// Where each number of a held list stands. A table is reached by its own kind of number.
ghost use Rattle.std.specs.Prelude.{◌≡◌, ◌-◌, ◌≤◌, ◌<◌};
ghost use Rattle.held_model.specs.Layout.{call_place, record_place, bank_place, help_place, holding_place, words_place};

use llsc::ProcessNumber;
use model::SequenceNumber;
use station::RecordNumber;

// Process p: line, word place, count, the record of its open call, b, c, d, e.
pub fn call_place(p: ProcessNumber) -> usize
    ensures { result ≡ call_place p.0 }
{
    call_place_at(p.0 as usize)
}

// The same by a loop's own number.
pub fn call_place_at(p: usize) -> usize
    requires { p < 256 }
    ensures { result ≡ call_place p }
{
    3 + 8 * p
}

// Record j, and its X first: buffer, sequence number, links.
pub fn record_place(j: RecordNumber) -> usize
    ensures { result ≡ record_place j.0 }
{
    131 + 179 * (j.0 as usize)
}

// Bank[i] of record j: buffer, links.
pub fn bank_place(j: RecordNumber, i: SequenceNumber) -> usize
    ensures { result ≡ bank_place j.0 i.0 }
{
    bank_place_at(j, i.0 as usize)
}

// The same by a loop's own number.
pub fn bank_place_at(j: RecordNumber, i: usize) -> usize
    requires { i < 256 }
    ensures { result ≡ bank_place j.0 i }
{
    record_place(j) + 3 + 2 * i
}

// Help[p] of record j: flag, buffer, links.
pub fn help_place(j: RecordNumber, p: ProcessNumber) -> usize
    ensures { result ≡ help_place j.0 p.0 }
{
    help_place_at(j, p.0 as usize)
}

// The same by a loop's own number.
pub fn help_place_at(j: RecordNumber, p: usize) -> usize
    requires { p < 256 }
    ensures { result ≡ help_place j.0 p }
{
    record_place(j) + 67 + 3 * p
}

// What process p holds of record j: mybuf, x's buffer and sequence number, the mark of an answered LL.
pub fn holding_place(j: RecordNumber, p: ProcessNumber) -> usize
    ensures { result ≡ holding_place j.0 p.0 }
{
    holding_place_at(j, p.0 as usize)
}

// The same by a loop's own number.
pub fn holding_place_at(j: RecordNumber, p: usize) -> usize
    requires { p < 256 }
    ensures { result ≡ holding_place j.0 p }
{
    record_place(j) + 115 + 4 * p
}

// The words of a list that is laid out for r records.
pub fn words_place(r: usize) -> usize
    requires { r ≤ 8 }
    ensures { result ≡ words_place r }
{
    131 + 179 * r
}

// How many words a list of this length has, for any r.
pub fn room(length: usize, r: usize) -> usize
    ensures { result ≡ length - words_place r }
{
    length.saturating_sub(r.saturating_mul(179).saturating_add(131))
}
