// Records, each its twelve bytes: what they say, and which are good.
ghost use Rattle.std.specs.Prelude.{◌≡◌, ◌&&◌};
ghost use Rattle.boards.specs.Files.{number4, record_of, good_front, rising};
ghost use Rattle.boards.specs.Places.{all_good, read, follows};

pub const RECORD_SIZE: usize = 12;

pub type Record = [u8; RECORD_SIZE];

// CR 12: "order (1: 0 step, 1 LL, 2 SC, 3 VL)".
// Kept: the order of a record may be any byte, and row 26 refuses those over 3.
const ORDER_SC: u8 = 2;

const ORDER_VL: u8 = 3;

// The two numbers with which a record begins, and a trailer too.
pub fn two_numbers(bytes: &[u8; 12]) -> (u32, u32)
    ensures { result ≡ (number4 bytes.now 0, number4 bytes.now 4) }
{
    let [a, b, c, d, e, f, g, h, ..] = *bytes;
    (
        u32::from_le_bytes([a, b, c, d]),
        u32::from_le_bytes([e, f, g, h]),
    )
}

pub fn tick(bytes: &Record) -> u32
    ensures { result ≡ (record_of bytes.now).tick }
{
    two_numbers(bytes).0
}

pub fn value(bytes: &Record) -> u32
    ensures { result ≡ (record_of bytes.now).value }
{
    two_numbers(bytes).1
}

// Kept: the byte as the file has it, and any will do; it need not be a process of a bench.
pub fn process(bytes: &Record) -> u8
    ensures { result ≡ (record_of bytes.now).process }
{
    bytes[8]
}

// Kept: the byte as the file has it; row 26 looks at it, and no number over 3 is an order.
pub fn order(bytes: &Record) -> u8
    ensures { result ≡ (record_of bytes.now).order }
{
    bytes[9]
}

// Its value is 0 unless the order is SC.
fn is_good(bytes: &Record) -> bool
    ensures { result ≡ good_front bytes.now }
{
    let order = order(bytes);
    order <= ORDER_VL
        && (order == ORDER_SC || value(bytes) == 0)
        && bytes[10] == 0
        && bytes[11] == 0
}

// A good record, whose tick is not below that of the one before it.
fn follows(before: &Record, next: &Record) -> bool
    ensures { result ≡ follows before.now next.now }
{
    is_good(next) && tick(before) <= tick(next)
}

// What row 26 asks of a file: good records, whose ticks never fall.
// Kept: one pass of the library's over each two neighbours, so that a file is left at its first fault.
pub fn good_records(records: &[Record]) -> bool
    ensures { result ≡ (all_good records.now && rising 0 (read records.now)) }
{
    records.first().is_none_or(|first| is_good(first))
        && records.is_sorted_by(|before, next| follows(before, next))
}
