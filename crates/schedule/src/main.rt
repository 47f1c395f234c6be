// The program `schedule`: schedule text from standard input, at most 16,385 bytes, and its listing, of at most 65,536
// bytes, to standard output. Where and why it was refused, and its open calls, go to standard error.

#![tactic(auto)]

use std::process::ExitCode;
use text_entry::state::Held;

// Kept: alike in five programs but for the run, the rooms and swaps' marks, which stand between what they share.
#[tactic(auto, using(text_machine::proofs::RecordLaws::fillers))]
fn main(rt: HostRuntime) -> ExitCode {
    let mut text = [0; 16385];
    let got = console::read_full(&mut rt.stdin(), &mut text);
    let given = &text[..got];
    let mut list = console::large_buffer();
    let mut words = [0; 5120];
    let held = Held::empty();
    let out = text_machine::text_run::run_by_value(held, 16, false, &mut words, given, &mut list);
    let left = messages::figure2::left(out.held.all);
    let ended = messages::Ended {
        outcome: out.outcome,
        entries: out.entries,
        report: out.report,
        left,
        text: given,
    };
    messages::conclude(
        &mut rt.stdout(),
        &mut rt.stderr(),
        list.get(..out.written),
        ended,
    )
}
