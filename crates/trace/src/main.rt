// The program `trace`: schedule text from standard input, at most 16,385 bytes, and its trace, of at most 3,145,728
// bytes, to standard output. Where and why it was refused, and its open calls, go to standard error.

#![tactic(auto)]

ghost use Rattle.std.specs.Prelude.{◌≡◌, length, IfOk};

use std::alloc::{AllocError, Global};
use std::process::ExitCode;
use text_entry::state::Held;

fn main(rt: HostRuntime) -> Result<ExitCode, AllocError> {
    let mut text = [0; 16385];
    let got = console::read_full(&mut rt.stdin(), &mut text);
    let given = &text[..got];
    let mut list = room(rt.alloc())?;
    let mut words = [0; 5120];
    let held = Held::empty();
    let out = text_machine::text_run::run_by_value(held, 16, true, &mut words, given, &mut list);
    let left = messages::figure2::left(out.held.all);
    let ended = messages::Ended {
        outcome: out.outcome,
        entries: out.entries,
        report: out.report,
        left,
        text: given,
    };
    let status = messages::conclude(
        &mut rt.stdout(),
        &mut rt.stderr(),
        list.get(..out.written),
        ended,
    );
    Ok(status)
}

// Room for the trace of 60,000 entries.
fn room(alloc: Global) -> Result<Vec<u8>, AllocError>
    ensures { IfOk result (λ room. 3145728 ≡ length room.items) }
{
    vec![in alloc; 0; 3145728]
}
