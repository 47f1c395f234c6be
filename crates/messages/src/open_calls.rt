// The calls of sixteen processes, where they are open.
ghost use Rattle.std.specs.Prelude.{◌≡◌, None, get_or, OnOk};
ghost use Rattle.std.specs.Io.KnownBytes.{Appends};
ghost use Rattle.messages.specs.OpenLines.{open_line, open_below, still_open};

use crate::Left;
use crate::calls::{Call, Method, Told};
use positions::{Sizes, StopReport};
use std::io;
use std::io::Write;

// The call of process p, if there is such a process and it has one.
pub(crate) fn call_at(p: u64, calls: &[Option<Call>; 16]) -> Option<Call>
    ensures { result ≡ get_or calls.now p None }
{
    calls.get(p as usize).copied().flatten()
}

// The calls that a run leaves open, where its text gave N and W.
pub(crate) fn still_open<W: Write>(to: &mut W, report: StopReport, left: &Left) -> io::Result<()>
    ensures { OnOk result (Appends (W.contents to.old) (W.contents to.new)
        (still_open left.now report)) }
{
    match report {
        StopReport::NotRead | StopReport::AtFault(_) => Ok(()),
        StopReport::AtNoItem(sizes) | StopReport::AtItem(sizes, _) => open_below(to, sizes, left),
    }
}

// A line for each process below N that has an open call.
#[tactic(auto, unfolding(crate::specs::OpenLines::open_lines), using(crate::proofs::LineLaws::below_laws))]
fn open_below<W: Write>(to: &mut W, sizes: Sizes, left: &Left) -> io::Result<()>
    ensures { OnOk result (Appends (W.contents to.old) (W.contents to.new)
        (open_below left.now sizes)) }
{
    let method = Method {
        figure: left.figure,
        w: sizes.w,
    };
    let calls = &left.calls[..sizes.n.min(16) as usize];
    for (p, call) in calls.iter().enumerate() {
        line(to, p, method, *call)?;
    }
    Ok(())
}

// The line of process p, if its call is open.
fn line<W: Write>(to: &mut W, p: usize, method: Method, call: Option<Call>) -> io::Result<()>
    ensures { OnOk result (Appends (W.contents to.old) (W.contents to.new) (open_line method p call)) }
{
    match call {
        None => Ok(()),
        Some(call) => writeln!(to, "open: process {p}, {}", Told { call, method }),
    }
}
