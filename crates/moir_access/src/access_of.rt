// The access that a step makes, by the line of its process.
ghost use Rattle.std.specs.Prelude.{◌≡◌};
ghost use Rattle.moir_model.specs.Points.{point_of};
ghost use Rattle.moir_steps.specs.Ranges.{Ready};
ghost use Rattle.moir_access.specs.Accesses.{no_access, access_of};

use crate::{Access, on_array, on_header, on_segment};
use llsc::ProcessNumber;
use moir_lines::copies::CopyOf;
use moir_lines::points;
use moir_model::{Bench, Process};
use moir_steps::before::Before;

// What stands for no access: an idle process makes none.
// Kept: a trace asks also at a start, and drops what it gets; an Option would be opened at each step, which has one.
fn no_access() -> Access
    ensures { result ≡ no_access }
{
    on_header::read(0, moir_model::header_at_set_up())
}

// From the memory before the step. An idle process and a line that is none are never stepped.
// Kept: an arm for each point, as each names its line and what it looks at.
#[tactic(auto, unfolding(crate::specs::Accesses::access_of))]
pub fn access_of(bench: Bench, p: ProcessNumber, process: Process, words: &[u64]) -> Access
    requires { Ready bench process p words.now }
    ensures { result ≡ access_of (point_of process.line) p bench process words.now }
{
    let line = process.line;
    let header = bench.header;
    let before = Before {
        bench: &bench,
        process,
        words,
    };
    match line {
        points::WLL_10 => on_header::read(10, header),
        points::WLL_2 => on_segment::read(2, &before),
        points::WLL_4 => on_array::read(CopyOf::Wll, &before),
        points::WLL_5 => on_segment::cas(&before),
        points::WLL_6 => on_segment::read(6, &before),
        points::WLL_7 => on_header::read(7, header),
        points::SC_14 => on_header::read(14, header),
        points::SC_17 => on_array::write(p, &before),
        points::SC_19 => on_header::cas(header, process),
        points::SC_2 => on_segment::read(2, &before),
        points::SC_4 => on_array::read(CopyOf::Sc, &before),
        points::SC_5 => on_segment::cas(&before),
        points::SC_6 => on_segment::read(6, &before),
        points::SC_7 => on_header::read(7, header),
        points::VL_13 => on_header::read(13, header),
        _ => no_access(),
    }
}
