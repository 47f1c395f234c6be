// The program `judge`: a log as text from standard input, under 2,097,152 bytes and at most 65,536 numbers, and its
// verdict, `yes`, `no` or `refused C`, to standard output. Why it is not yes goes to standard error; so does why a text is
// no log, which gets no verdict.

#![tactic(auto)]

mod calls;
mod faults;
mod log_lines;
mod refusals;
mod why;

ghost use Rattle.std.specs.Prelude.{◌≡◌, ◌≤◌, length, replicate};

use crate::calls::Log;
use logtext::Reading;
use std::io;
use std::io::Write;
use std::process::ExitCode;
use verdicts::Judgement;

// Where the verdict goes, and where what else is told goes.
#[derive(Drop)]
struct Outputs<V, E> {
    verdict: V,
    errors: E,
}

fn main(rt: HostRuntime) -> ExitCode {
    let mut text = text_room();
    let got = console::read_full(&mut rt.stdin(), &mut text);
    let mut outputs = Outputs {
        verdict: rt.stdout(),
        errors: rt.stderr(),
    };
    if got == text.len() {
        return console::status(faults::too_long(&mut outputs.errors));
    }
    let given = &text[..got];
    let mut numbers = number_room();
    // Matched here: where a function takes the reading, LLVM makes a slower loop of the bytes, 16.4 million instructions
    // for 512 calls of 64 words and not 15.3.
    let Reading { fault, count, .. } = logtext::read(given, &mut numbers);
    console::status(match fault {
        Some(fault) => faults::tell(&mut outputs.errors, fault, count, given),
        None => outputs.answer(&numbers, count, given),
    })
}

// Room for 512 calls of 64 words and their spaces, twice and more.
fn text_room() -> [u8; 2097152]
    ensures value { 2097152 ≡ length result }
    ensures value_2 { result ≡ replicate 2097152 0 }
{
    [0; 2097152]
}

// Room for 936 calls of 64 words.
fn number_room() -> [u64; 65536]
    ensures value { 65536 ≡ length result }
    ensures value_2 { result ≡ replicate 65536 0 }
{
    [0; 65536]
}

impl<V: Write, E: Write> Outputs<V, E> {
    // The verdict on the first numbers of the room, and why it is not yes.
    fn answer(&mut self, numbers: &[u64], count: usize, text: &[u8]) -> io::Result<()> {
        if count < 2 {
            return faults::lacks_n_and_w(&mut self.errors, count);
        }
        if count <= numbers.len() {
            let numbers = &numbers[..count];
            return self.judge(Log { numbers, text });
        }
        Ok(())
    }

    fn judge(&mut self, log: Log) -> io::Result<()>
        requires { 2 ≤ length log.numbers.now }
    {
        let judgement = logtext::judge_numbers(log.numbers);
        self.print(judgement)?;
        why::explain(&mut self.errors, judgement, log)
    }

    fn print(&mut self, judgement: Judgement) -> io::Result<()> {
        match judgement {
            Judgement::Yes => self.write(b"yes\n"),
            Judgement::No(_) => self.write(b"no\n"),
            Judgement::Refused(refusal) => {
                self.write(b"refused ")?;
                let number = u64::from(refusal.refusal().number());
                shown(console::print_decimal(&mut self.verdict, number))?;
                self.write(b"\n")
            }
        }
    }

    // What can't be written to standard output is told on standard error, unless it goes to a cut pipe.
    fn write(&mut self, bytes: &[u8]) -> io::Result<()> {
        match self.verdict.write_all(bytes) {
            Ok(()) => Ok(()),
            Err(lost) if console::is_cut(&lost) => Err(lost),
            Err(_) => writeln!(self.errors, "standard output could not be written"),
        }
    }
}

// A number whose loss the words after it tell, if it does not go to a cut pipe.
fn shown(printed: io::Result<()>) -> io::Result<()> {
    match printed {
        Err(lost) if console::is_cut(&lost) => Err(lost),
        _ => Ok(()),
    }
}
