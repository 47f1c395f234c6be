// The program `fractions N W FILE...`: the listings in the files are added to the sums of a season, and its table goes
// to standard output. A file that can't be read or is refused is told on standard error, and the sums stay.

#![tactic(auto)]

mod arguments;
mod files;
mod notices;

use crate::files::Season;
use std::io;
use std::io::Write;
use std::process::ExitCode;
use sums::{Row, Sums};

fn main(rt: HostRuntime) -> ExitCode {
    let mut errors = rt.stderr();
    let count = arguments::count(&rt);
    if count < 4 {
        return console::status(notices::usage(&mut errors));
    }
    let (Some(n), Some(w)) = (
        arguments::number_argument(&rt, 1),
        arguments::number_argument(&rt, 2),
    ) else {
        return console::status(notices::usage(&mut errors));
    };
    let mut table_to = rt.stdout();
    let empty = sums::empty_sums(n, w);
    if let Err(refusal) = sums::table_of(empty) {
        return console::status(notices::refused(&mut table_to, refusal));
    }
    let mut season = Season {
        rt: &rt,
        errors: &mut errors,
        sums: empty,
    };
    season.add_files(count);
    console::status(print_table(&mut table_to, season.sums, count - 3, n as usize))
}

// How many of the files are taken, and the rows.
fn print_table(to: &mut impl Write, sums: Sums, files: usize, n: usize) -> io::Result<()> {
    writeln!(to, "taken {} of {files}", sums.taken)?;
    match sums::table_of(sums) {
        Ok(rows) => print_rows(to, rows, n),
        Err(refusal) => notices::refused(to, refusal),
    }
}

// A line for each process below n: its number and its two fractions.
fn print_rows(to: &mut impl Write, rows: [Row; 16], n: usize) -> io::Result<()> {
    for (process, row) in rows.iter().take(n).enumerate() {
        writeln!(to, "{process} {} {}", row.successes, row.steps)?;
    }
    Ok(())
}
