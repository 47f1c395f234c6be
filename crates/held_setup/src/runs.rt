// The numbers of a set-up, run by run.
ghost use Rattle.std.specs.Prelude.{◌≡◌, ◌+◌, ◌-◌, ◌*◌, ◌≤◌, ◌<◌, length, drop};
ghost use Rattle.std.proofs.lemmas.List.Edits.{sets};
ghost use Rattle.held_model.specs.Layout.{words_place};
ghost use Rattle.station_setup.specs.StationSetUpByValue.{Admitted};
ghost use Rattle.held_setup.specs.Setting.{runs, bank_run, holding_run, record_set, records_set, head_set, WordsSet};

use held_rows::layout;
use llsc::ProcessNumber;
use llsc::counts::Processes;
use model::{SequenceNumber, sizes};
use station::RecordNumber;
use words::word_runs;

// Bank[i] = i, with no links, for so many places from `at` on.
#[tactic(auto, using(crate::proofs::RunLaws::bank_next))]
fn write_banks(held: &mut [u64], at: usize, count: usize)
    requires { (count ≤ 32) × (at + 2 * count ≤ length held.old) }
    ensures { held.new ≡ sets held.old at (runs bank_run count) }
{
    for i in 0..count {
        word_runs::copy_in(held, at + 2 * i, &[i as u64, 0]);
    }
}

// What so many processes hold of a record, from `at` on: process p owns buffer mine + p.
#[tactic(auto, using(crate::proofs::RunLaws::holding_next))]
fn write_holdings(held: &mut [u64], at: usize, mine: usize, count: usize)
    requires { ((mine ≤ 32) × (count ≤ 16)) × (at + 4 * count ≤ length held.old) }
    ensures { held.new ≡ sets held.old at (runs (holding_run mine) count) }
{
    for p in 0..count {
        word_runs::copy_in(held, at + 4 * p, &[(mine + p) as u64, 0, 0, 0]);
    }
}

// Record j: X = (0, 0), the tables, what the N processes hold of it, no links.
fn write_record(held: &mut [u64], count: Processes, j: RecordNumber)
    requires { words_place (j.0 + 1) ≤ length held.old }
    ensures { held.new ≡ record_set held.old count.n j.0 }
{
    let places = sizes::sequence_numbers(count);
    let x = layout::record_place(j);
    word_runs::fill(held, x, x + 3, 0);
    write_banks(held, layout::bank_place(j, SequenceNumber(0)), places);
    let help = layout::help_place(j, ProcessNumber(0));
    word_runs::fill(held, help, help + 3 * count.n, 0);
    write_holdings(
        held,
        layout::holding_place(j, ProcessNumber(0)),
        places,
        count.n,
    );
}

// The first r records.
pub fn write_records(held: &mut [u64], count: Processes, r: usize)
    requires { (r ≤ 8) × (words_place r ≤ length held.old) }
    ensures { held.new ≡ records_set held.old count.n r }
{
    for j in 0..r {
        write_record(held, count, RecordNumber(j as u8));
    }
}

// N, W and R, and the processes idle.
pub fn write_head(held: &mut [u64], count: Processes, w: usize, r: usize)
    requires { 131 ≤ length held.old }
    ensures { held.new ≡ head_set held.old count.n w r }
{
    word_runs::copy_in(held, 0, &[count.n as u64, w as u64, r as u64]);
    let call = layout::call_place(ProcessNumber(0));
    word_runs::fill(held, call, call + 8 * count.n, 0);
}

// The words, from `at` on.
pub fn write_words(held: &mut [u64], at: usize, n: usize, w: usize, r: usize, value: &[u64])
    requires { (at ≤ length held.old) × Admitted n w r (length held.old - at) (length value.now) }
    ensures { WordsSet held.old held.new at n w r value.now }
{
    station_setup::words_at_set_up(&mut held[at..], n, w, r, value);
}
