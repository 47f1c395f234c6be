// What the programs share to read and to print: a room filled from a reader, a number in decimal, and the status of a
// program whose output is a cut pipe.

#![tactic(auto)]

ghost use Rattle.std.specs.Prelude.{◌≡◌, ◌≢◌, ◌⊎◌, ◌↔◌, length, take, OnOk, IfErr, IsTrue};
ghost use Rattle.std.specs.Process.{exit_status};
ghost use Rattle.std.specs.IoError.{error_kind};
ghost use Rattle.std.specs.Io.KnownBytes.{Appends, Consumes};
ghost use Rattle.console.specs.Counts.{IsPrefixLen};
ghost use Rattle.listing.specs.Decimal.{decimal};

use std::io;
use std::io::{ErrorKind, Read, Write};
use std::process::ExitCode;

// The status with which a shell sees a program end that a cut pipe ended: 128, and 13 for the signal SIGPIPE.
const CUT: u8 = 141;

// Room for a listing.
pub fn large_buffer() -> [u8; 65536]
    ensures { 65536 ≡ length result }
{
    [0; 65536]
}

// Reads until the room is full, the input ends or a read fails, and answers how many bytes it put at the room's start.
#[tactic(auto, using(crate::proofs::Reading::reading))]
pub fn read_full<R: Read>(from: &mut R, room: &mut [u8]) -> usize
    ensures in_bounds { IsPrefixLen result room.new }
    ensures bytes { Consumes (R.remaining from.old) (R.remaining from.new) (take result room.new) }
{
    let mut done = 0;
    // Kept: a while: each read says how far it came; `read_exact` would not tell how much of a shorter input it read.
    while done < room.len() {
        match from.read(&mut room[done..]) {
            Ok(0) | Err(_) => break,
            Ok(n) => done += n,
        }
    }
    done
}

// A number in decimal, with no line feed.
#[tactic(auto, using(crate::proofs::Shown::shown))]
pub fn print_decimal<W: Write>(to: &mut W, n: u64) -> io::Result<()>
    ensures { OnOk result (Appends (W.contents to.old) (W.contents to.new) (decimal n)) }
{
    write!(to, "{n}")
}

// Whether what could not be written went to a cut pipe: one that nobody reads any more.
pub fn is_cut(lost: &io::Error) -> bool
    ensures { IsTrue result ↔ error_kind lost.now ≡ ErrorKind.BrokenPipe }
{
    matches!(lost.kind(), ErrorKind::BrokenPipe)
}

// The status of a program after its last words. A cut pipe would have ended it, were the signal not held back. Other
// words that are lost stay without a word: there is no place left to say so.
pub fn status(told: io::Result<()>) -> ExitCode
    ensures cut { IfErr told (λ lost. error_kind lost ≡ ErrorKind.BrokenPipe → exit_status result ≡ 141) }
    ensures lost { IfErr told (λ lost. error_kind lost ≢ ErrorKind.BrokenPipe → exit_status result ≡ 0) }
    ensures told { OnOk told (exit_status result ≡ 0) }
    ensures either { (exit_status result ≡ 0) ⊎ (exit_status result ≡ 141) }
{
    match told {
        Err(lost) if is_cut(&lost) => ExitCode::from(CUT),
        _ => ExitCode::SUCCESS,
    }
}
