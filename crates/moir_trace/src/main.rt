// The program `moir_trace`: schedule text from standard input, at most 16,385 bytes, run on Moir's bench, and its trace, of
// at most 3,145,728 bytes, to standard output. Where and why it was refused, and its open calls, go to standard error.

#![tactic(auto)]

ghost use Rattle.std.specs.Prelude.{◌≡◌, length, IfOk};

use std::alloc::{AllocError, Global};
use std::process::ExitCode;

fn main(rt: HostRuntime) -> Result<ExitCode, AllocError> {
    let mut text = [0; 16385];
    let got = console::read_full(&mut rt.stdin(), &mut text);
    let given = &text[..got];
    let mut list = room(rt.alloc())?;
    let out = moir_text_machine::texts::run_text(given, true, &mut list);
    let left = moir_messages::left(out.held);
    let ended = messages::Ended {
        outcome: out.outcome,
        entries: out.entries,
        report: out.report,
        left,
        text: given,
    };
    let status = messages::conclude(
        &mut rt.stdout(),
        &mut rt.stderr(),
        list.get(..out.written),
        ended,
    );
    Ok(status)
}

// Room for the trace of 60,000 entries.
fn room(alloc: Global) -> Result<Vec<u8>, AllocError>
    ensures { IfOk result (λ room. 3145728 ≡ length room.items) }
{
    vec![in alloc; 0; 3145728]
}
