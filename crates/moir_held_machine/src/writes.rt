// What a command left, written back.
ghost use Rattle.std.specs.Prelude.{◌≡◌, ◌<◌, ◌≤◌, cond, length};
ghost use Rattle.moir_held_machine.specs.Writes.{header_numbers, process_numbers, written};

use llsc::ProcessNumber;
use moir_held_rows::layout;
use moir_model::{Header, Moved, Process};
use words::word_runs;

fn header_numbers(h: Header) -> [u64; 2]
    ensures { result ≡ header_numbers h }
{
    [h.tag as u64, h.pid.0 as u64]
}

// 1 where a WLL was answered.
fn mark(answered: bool) -> u64
    ensures { result ≡ cond answered 1 0 }
{
    if answered { 1 } else { 0 }
}

fn process_numbers(q: Process) -> [u64; 17]
    ensures { result ≡ process_numbers q }
{
    [
        q.line as u64,
        q.word as u64,
        q.count as u64,
        mark(q.answered),
        q.keep as u64,
        q.x.tag as u64,
        q.x.pid.0 as u64,
        q.oldhdr.tag as u64,
        q.oldhdr.pid.0 as u64,
        q.newhdr.tag as u64,
        q.newhdr.pid.0 as u64,
        q.h.tag as u64,
        q.h.pid.0 as u64,
        q.y.tag as u64,
        q.y.val,
        q.z.tag as u64,
        q.z.val,
    ]
}

// All that a command to process p left, whose word place was k.
pub fn write_back(held: &mut [u64], p: ProcessNumber, k: usize, moved: Moved)
    requires { (p.0 < 16) × ((k < 64) × (340 ≤ length held.old)) }
    ensures { held.new ≡ written held.old p.0 k moved }
{
    word_runs::copy_in(held, layout::HEADER, &header_numbers(moved.bench.header));
    let tag = moved.bench.tags[k] as u64;
    word_runs::copy_in(held, layout::tag_place(k), &[tag]);
    word_runs::copy_in(
        held,
        layout::process_place(p),
        &process_numbers(moved.process),
    );
}
