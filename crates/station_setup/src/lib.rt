// The set-up of a station by value: "All records begin with the one value." Memory beyond what N, W and R need stays.
// Kept: n, w and r one by one, with bounds as clauses: a set-up names any numbers, and `Sizes` would bound W too.

#![tactic(auto)]

ghost use Rattle.std.specs.Prelude.{◌≡◌, ◌++◌, ◌+◌, ◌*◌, ◌-◌, ◌≤◌, length, replicate};
ghost use Rattle.std.proofs.lemmas.List.Edits.{sets};
ghost use Rattle.llsc.specs.Refusals.{number_told};
ghost use Rattle.model.specs.Sizes.{buffers, sequence_numbers};
ghost use Rattle.station.specs.Station.{no_holding};
ghost use Rattle.station.specs.StationSetUp.{holding_at_set_up, station_process_at_set_up, blocks, firsts};
ghost use Rattle.station_setup.specs.StationSetUpByValue.{process_for, station_set_up_number, tables_set, sized, Admitted, block, told, station_prepared};

use llsc::counts::Processes;
use llsc::refusals::Refusal;
use model::{BufferNumber, sizes};
use station::{Holding, RecordNumber, Station, StationProcess};
use station_rows::sizes::Sizes;
use station_rows::{causes, table};
use words::word_runs;

pub mod gathered;

// The refusal by the lengths of what is lent: rows 1, 2, 23, 3, 8.
#[tactic(auto, unfolding(crate::specs::StationSetUpByValue::station_set_up_number, station_rows::specs::StationCommandRows::station_lent_number))]
pub fn set_up_refusal(
    n: usize,
    w: usize,
    r: usize,
    processes: usize,
    words: usize,
    value: usize,
) -> Result<(), Refusal>
    ensures { number_told result ≡ station_set_up_number n w r processes words value }
{
    table::lent_refusal(n, w, r, processes, words)?;
    Refusal::ValueNotWWords.if_holds(value != w)
}

// The tables of the first r records.
pub fn with_tables(mut station: Station, n: usize, w: usize, r: usize) -> Station
    requires { (n ≤ 16) × (r ≤ 8) }
    ensures { result ≡ tables_set station n r }
{
    for j in 0..r {
        let bench = station_records::bench_of(station, RecordNumber(j as u8));
        let set = setup::bench_at_set_up(bench, Processes { n }, w);
        station = station_records::put_bench(station, RecordNumber(j as u8), set);
    }
    station
}

// N, W, R and the tables.
pub fn station_at_set_up(station: Station, n: usize, w: usize, r: usize) -> Station
    requires { (n ≤ 16) × (r ≤ 8) }
    ensures { result ≡ sized (tables_set station n r) n w r }
{
    let mut next = with_tables(station, n, w, r);
    next.n = n;
    next.w = w;
    next.r = r;
    next
}

// BUF of one record, from a place on: the value, then zeros.
// Kept: a place in all words, as `word_runs` has it.
#[tactic(auto, using(crate::proofs::StationSetUpLaws::block_set))]
fn block_at_set_up(words: &mut [u64], at: usize, each: usize, value: &[u64])
    requires { (at + each ≤ length words.old) × (length value.now ≤ each) }
    ensures { words.new ≡ sets words.old at (block each value.now) }
{
    word_runs::copy_in(words, at, value);
    word_runs::fill(words, at + value.len(), at + each, 0);
}

// The words: BUF[0] of each record is the value, every other word 0.
#[tactic(auto, using(crate::proofs::StationSetUpLaws::words_laws))]
pub fn words_at_set_up(words: &mut [u64], n: usize, w: usize, r: usize, value: &[u64])
    requires { Admitted n w r (length words.old) (length value.now) }
    ensures { words.new ≡ sets words.old 0 (blocks r n w value.now) }
{
    let each = sizes::buffers(Processes { n }) * w;
    for j in 0..r {
        block_at_set_up(words, j * each, each, value);
    }
    word_runs::fill(words, r * each, causes::station_words(Sizes { n, w, r }), 0);
}

// What a process holds of a record, with the buffer that it owns.
fn holding_at_set_up(mybuf: u8) -> Holding
    ensures { result ≡ holding_at_set_up mybuf 0 no_holding }
{
    Holding {
        mybuf: BufferNumber(mybuf),
        ..station::empty_holding()
    }
}

// The record of process p, which owns buffer 2N + p of each record; what it holds of records from R on stays.
pub fn process_at_set_up(n: usize, r: usize, p: usize, q: StationProcess) -> StationProcess
    requires { (n ≤ 16) × ((r ≤ 8) × (p ≤ 16)) }
    ensures { result ≡ station_process_at_set_up n r p q }
{
    let h = holding_at_set_up((sizes::sequence_numbers(Processes { n }) + p) as u8);
    let mut holdings = q.holdings;
    holdings[..r].fill(h);
    StationProcess {
        holdings,
        ..station::empty_process()
    }
}

// The record of process i at a set-up for N = n and R = r; where there is no such process, or no such set-up, it stays.
#[tactic(auto, unfolding(crate::specs::StationSetUpByValue::process_for))]
pub fn process_for(n: usize, r: usize, i: usize, q: StationProcess) -> StationProcess
    ensures { result ≡ process_for n r i q }
{
    if 16 < n || 8 < r || 16 < i {
        q
    } else {
        process_at_set_up(n, r, i, q)
    }
}

// The first `count` of sixteen process records.
#[tactic(auto, using(station_facts::proofs::Firsts::firsts_one_more))]
pub fn processes_at_set_up(
    mut all: [StationProcess; 16],
    n: usize,
    r: usize,
    count: usize,
) -> [StationProcess; 16]
    requires { count ≤ 16 }
    ensures { result ≡ firsts (process_for n r) 0 count all }
{
    for i in 0..count {
        all[i] = process_for(n, r, i, all[i]);
    }
    all
}

// The whole set-up but for the process records, of which `len` are lent: refused, or the station record after it.
#[tactic(auto, using(crate::proofs::StationSetUpLaws::prepare_laws))]
pub fn prepare(
    station: Station,
    len: usize,
    n: usize,
    w: usize,
    r: usize,
    value: &[u64],
    words: &mut [u64],
) -> Result<Station, Refusal>
    ensures { (told station result, words.new) ≡ station_prepared station len n w r value.now words.old }
{
    set_up_refusal(n, w, r, len, words.len(), value.len())?;
    words_at_set_up(words, n, w, r, value);
    Ok(station_at_set_up(station, n, w, r))
}
