// An order that no row refuses, obeyed on the numbers: what it reads is taken by value, and what it left written back.
ghost use Rattle.std.specs.Prelude.{◌≡◌, ◌<◌, ◌≤◌, length, drop};
ghost use Rattle.moir_model.specs.Command.{obeyed};
ghost use Rattle.moir_steps.specs.Ranges.{Obeyable};
ghost use Rattle.moir_held_model.specs.HeldCommand.{MarksAfter};
ghost use Rattle.moir_held_model.specs.Memory.{header_from, tag_from, memory_of};
ghost use Rattle.moir_held_rows.specs.Reads.{HeaderFits};
ghost use Rattle.moir_held_rows.specs.ListRows.{Admits};
ghost use Rattle.moir_held_machine.specs.Writes.{near_from, OnWords};

use crate::writes;
use held_rows::reads::size_at;
use llsc::{Order, ProcessNumber};
use moir_held_rows::{layout, reads};
use moir_model::{Bench, Moved, Process, Reply};
use moir_steps::orders;

// The bench, with the tag of segment k alone.
fn bench_at(held: &[u64], k: usize) -> Bench
    requires { (k < 64) × ((340 ≤ length held.now) × (HeaderFits (header_from held.now 2) × (tag_from held.now k < 65536))) }
    ensures { result ≡ near_from held.now k }
{
    let mut tags = [0; 64];
    tags[k] = held[layout::tag_place(k)] as u16;
    Bench {
        n: size_at(held, 0),
        w: size_at(held, 1),
        header: reads::header_at(held, layout::HEADER),
        tags,
    }
}

// An order obeyed on the words that a list holds from the place `at` on.
fn on_words(
    order: Order,
    p: ProcessNumber,
    value: &[u64],
    bench: Bench,
    process: Process,
    held: &mut [u64],
    at: usize,
) -> Moved
    requires { (at ≤ length held.old) × Obeyable order p value.now bench process (drop at held.old) }
    ensures { OnWords held.old held.new at order p value.now bench process result }
{
    orders::obey(order, p, value, bench, process, &mut held[at..])
}

pub fn obey(held: &mut [u64], p: usize, order: Order, value: &[u64]) -> Reply
    requires { Admits held.old p order value.now }
    ensures done { (result, memory_of held.new) ≡ obeyed (memory_of held.old) (record { 0 = p }) order value.now }
    ensures marks { MarksAfter held.old held.new p }
{
    let me = ProcessNumber(p as u8);
    let process = reads::process_at(held, me);
    let k = process.word;
    let bench = bench_at(held, k);
    let moved = on_words(order, me, value, bench, process, held, layout::WORDS);
    writes::write_back(held, me, k, moved);
    moved.reply
}
