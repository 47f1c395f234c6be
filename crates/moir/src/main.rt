// The program `moir`: schedule text from standard input, at most 16,385 bytes, run on Moir's bench, and its listing, of at
// most 65,536 bytes, to standard output. Where and why it was refused, and its open calls, go to standard error.

#![tactic(auto)]

use std::process::ExitCode;

fn main(rt: HostRuntime) -> ExitCode {
    let mut text = [0; 16385];
    let got = console::read_full(&mut rt.stdin(), &mut text);
    let given = &text[..got];
    let mut list = console::large_buffer();
    let out = moir_text_machine::texts::run_text(given, false, &mut list);
    let left = moir_messages::left(out.held);
    let ended = messages::Ended {
        outcome: out.outcome,
        entries: out.entries,
        report: out.report,
        left,
        text: given,
    };
    messages::conclude(
        &mut rt.stdout(),
        &mut rt.stderr(),
        list.get(..out.written),
        ended,
    )
}
