// A message in pieces: what stands in it one after another. A function that chooses among messages chooses by value among
// their pieces, and one loop writes them: each choice that writes by itself would be proved for any writer.
ghost use Rattle.std.specs.Prelude.{OnOk};
ghost use Rattle.std.specs.Io.KnownBytes.{Appends};
ghost use Rattle.messages.specs.Pieces.{piece_text, pieces_text};

use crate::calls::Told;
use llsc::refusals::Refusal;
use saying::{Named, Place};
use std::io;
use std::io::Write;

#[derive(Clone, Copy)]
pub(crate) enum Piece<'a> {
    // words, or bytes of the text as they stand
    Text(&'a [u8]),
    Number(u64),
    Byte(Named),
    Call(Told),
}

// What stands for no piece, so that each message has as many.
pub(crate) const NONE: Piece<'static> = Piece::Text(b"");

// The pieces of "refused 10: ". Its first word tells a script that the run was refused.
pub(crate) fn begun<'a>(refusal: Refusal) -> [Piece<'a>; 12] {
    let mut pieces = [Piece::Text(b""); 12];
    pieces[0] = Piece::Text(b"refused ");
    pieces[1] = Piece::Number(refusal.number() as u64);
    pieces[2] = Piece::Text(b": ");
    pieces
}

// Those of "refused 10: line 3, column 14: ".
pub(crate) fn position<'a>(refusal: Refusal, place: Place) -> [Piece<'a>; 12] {
    let mut pieces = begun(refusal);
    pieces[3] = Piece::Text(b"line ");
    pieces[4] = Piece::Number(place.line as u64);
    pieces[5] = Piece::Text(b", column ");
    pieces[6] = Piece::Number(place.column as u64);
    pieces[7] = Piece::Text(b": ");
    pieces
}

#[tactic(auto, using(crate::proofs::PieceLaws::piece_laws))]
pub(crate) fn say<W: Write>(to: &mut W, pieces: &[Piece]) -> io::Result<()>
    ensures { OnOk result (Appends (W.contents to.old) (W.contents to.new) (pieces_text pieces.now)) }
{
    for piece in pieces {
        show(to, *piece)?;
    }
    Ok(())
}

fn show<W: Write>(to: &mut W, piece: Piece) -> io::Result<()>
    ensures { OnOk result (Appends (W.contents to.old) (W.contents to.new) (piece_text piece.entry)) }
{
    match piece {
        Piece::Text(bytes) => to.write_all(bytes),
        Piece::Number(n) => console::print_decimal(to, n),
        Piece::Byte(byte) => write!(to, "{byte}"),
        Piece::Call(call) => write!(to, "{call}"),
    }
}
