// The line of a log, written a call to a line, that has another number of numbers: what is at fault where one is lost.
ghost use Rattle.std.specs.Prelude.{◌≡◌};
ghost use Rattle.judge.specs.LogLines.{more_by, together_of, is_odd_line, ended_line, on_byte, lines_in};

use crate::calls;
use crate::calls::Log;
use llsc::counts::Width;
use std::io;
use std::io::Write;

// A line that has another number of numbers than a call: its number, its numbers, and how many come before it.
#[derive(Clone, Copy)]
struct Odd {
    line: usize,
    numbers: usize,
    from: usize,
}

// The line at which the reader is, from 1 on; the numbers before it and in it; whether the last byte is a digit. Lines of
// so many numbers as a call has, and the first other one after the value, if there is one.
// Kept: `inside` tells of the last byte, and of no field beside it: each of them has a value whether it holds or not.
#[derive(Clone, Copy)]
struct Lines {
    line: usize,
    before: usize,
    here: usize,
    inside: bool,
    calls: usize,
    odd: Option<Odd>,
}

pub(crate) fn remark(to: &mut impl Write, log: Log) -> io::Result<()> {
    let w = calls::width(log.numbers);
    if w == 0 {
        return Ok(());
    }
    let seen = looked(log.text, Width { w });
    let odd = match seen.odd {
        Some(odd) if seen.calls > 0 => odd,
        _ => return Ok(()),
    };
    write!(to, "line {} has {} numbers", odd.line, odd.numbers)?;
    if odd.from < 2 + w {
        return writeln!(
            to,
            ", of the value and of a call: one of N, W and the value may be lost"
        );
    }
    writeln!(to, "; a call of W = {w} has {}", 6 + w)
}

#[tactic(auto, using(crate::proofs::LineLaws::one_further, crate::proofs::LineLaws::last_line))]
fn looked(text: &[u8], width: Width) -> Lines
    ensures { result ≡ lines_in text.now width.w }
{
    let mut s = Lines {
        line: 1,
        before: 0,
        here: 0,
        inside: false,
        calls: 0,
        odd: None,
    };
    for b in text {
        s = on_byte(s, *b, width);
    }
    ended(s, width)
}

#[tactic(auto, unfolding(crate::specs::LogLines::on_byte))]
fn on_byte(s: Lines, b: u8, width: Width) -> Lines
    ensures { result ≡ on_byte s b width.w }
{
    if b == b'\n' {
        return ended(s, width);
    }
    let digit = positions::is_digit(b);
    Lines {
        here: more(s.here, digit && !s.inside),
        inside: digit,
        ..s
    }
}

// The line ends here.
#[tactic(auto, unfolding(crate::specs::LogLines::ended_line))]
fn ended(s: Lines, width: Width) -> Lines
    ensures { result ≡ ended_line s width.w }
{
    let odd = Odd {
        line: s.line,
        numbers: s.here,
        from: s.before,
    };
    Lines {
        line: more(s.line, true),
        before: together(s.before, s.here),
        here: 0,
        inside: false,
        calls: more(s.calls, s.here == 6 + width.w),
        odd: if is_odd(s, width) { Some(odd) } else { s.odd },
    }
}

fn more(n: usize, one: bool) -> usize
    ensures { result ≡ more_by n one }
{
    n.saturating_add(usize::from(one))
}

fn together(a: usize, b: usize) -> usize
    ensures { result ≡ together_of a b }
{
    if a < 9223372036854775807 && b < 9223372036854775807 {
        a + b
    } else {
        a
    }
}

// Whether the line is the first that has numbers, but not those of a call, nor of N, W and the value alone.
fn is_odd(s: Lines, width: Width) -> bool
    ensures { result ≡ is_odd_line s width.w }
{
    let w = width.w;
    if s.odd.is_some() || s.here == 0 {
        false
    } else if s.before < 2 + w {
        together(s.before, s.here) > 2 + w
    } else {
        s.here != 6 + w
    }
}
