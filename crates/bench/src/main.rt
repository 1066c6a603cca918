// Times coalesce, except and join on a leading column over N random rows, for three N.
// With no argument it prints only the row counts; with one, how long each job took as well.
#![tactic(auto)]

use collect::collects::{collect, collect_rows};
use except::excepts::Except;
use join::joins::Join;
use join::pairs::Pair;
use relation::bounds::MOST_WORK;
use relation::kinds::Kind;
use relation::refusals::Refusal;
use relation::rows::Row;
use source::tables::Table;
use std::alloc::{AllocError, Global};
use std::env;
use std::time::Instant;
use workspace::Workspace;

const SIZES: [usize; 3] = [256, 4096, 8192];

// Numbers that look random: Knuth's MMIX generator, the upper bits.
#[derive(Clone, Copy)]
struct Random(u64);

impl Random {
    fn below(&mut self, n: u32) -> u32 {
        self.0 = self
            .0
            .wrapping_mul(6_364_136_223_846_793_005)
            .wrapping_add(1_442_695_040_888_963_407);
        ((self.0 >> 33) & 0x7fff_ffff) as u32 % n.max(1)
    }

    // A row of one of so many names and another number.
    fn row(&mut self, names: u32) -> Row {
        let name = self.below(names);
        let other = self.below(3);
        let first = self.below(3000);
        let days = self.below(50);
        Row {
            first,
            end: first.saturating_add(days).saturating_add(1),
            values: [i64::from(name), i64::from(other), 0, 0, 0, 0],
        }
    }
}

// The kinds of each list: two numbers.
const KINDS: [Kind; 2] = [Kind::Number; 2];

// N rows of two numbers: about four for each first number, on some of 3,000 days.
fn random_rows(heap: Global, n: usize, seed: u64) -> Result<Vec<Row>, AllocError> {
    let mut random = Random(seed);
    let names = ((n / 4) & 0xffff_ffff) as u32;
    (0..n).map(|_| random.row(names)).collect(heap)
}

// The rows of a, coalesced.
fn coalesced(heap: Global, rows: &[Row], work: &mut Workspace) -> anyhow::Result<Vec<Row>> {
    let (work_rows, index) = work.lend();
    let count = collect_rows(rows, &KINDS, work_rows, index)?;
    Ok(work.list(count).to_vec(heap)?)
}

// How many rows a has without b.
fn excepted(a: &[Row], b: &[Row], work: &mut Workspace) -> Result<usize, Refusal> {
    let except = Except::new(Table::open(a, &KINDS)?, Table::open(b, &KINDS)?)?;
    let (rows, index) = work.lend();
    collect(&except, rows, index)
}

// How many rows a and b have joined on their first column.
fn joined(a: &[Row], b: &[Row], work: &mut Workspace) -> Result<usize, Refusal> {
    let pairs = [Pair { left: 1, right: 1 }];
    let join = Join::new(Table::open(a, &KINDS)?, Table::open(b, &KINDS)?, &pairs)?;
    let (rows, index) = work.lend();
    collect(&join, rows, index)
}

// Prints a job's row count, and where times are wanted how long it took.
// A flag: it says which of two lines is printed, once, and a type for that would be read back into one here.
fn report(
    rt: &HostRuntime,
    job: &str,
    count: usize,
    start: Instant,
    timed: bool,
) -> anyhow::Result<()> {
    if timed {
        let took = start.elapsed(rt)?;
        println!(rt; "{job}: {count} rows in {took:?}")?;
    } else {
        println!(rt; "{job}: {count} rows")?;
    }
    Ok(())
}

// Does each job over n rows.
fn run_size(rt: &HostRuntime, n: usize, timed: bool) -> anyhow::Result<()> {
    let heap = rt.alloc();
    let mut work = Workspace::new(heap, MOST_WORK)?;
    let left = random_rows(heap, n, 1)?;
    let right = random_rows(heap, n, 2)?;
    println!(rt; "{n} rows")?;
    let start = Instant::now(rt)?;
    let a = coalesced(heap, left.as_slice(), &mut work)?;
    report(rt, "coalesce", a.len(), start, timed)?;
    let b = coalesced(heap, right.as_slice(), &mut work)?;
    let start = Instant::now(rt)?;
    let count = excepted(a.as_slice(), b.as_slice(), &mut work)?;
    report(rt, "except", count, start, timed)?;
    let start = Instant::now(rt)?;
    let count = joined(a.as_slice(), b.as_slice(), &mut work)?;
    report(rt, "join", count, start, timed)
}

fn run(rt: &HostRuntime) -> anyhow::Result<()> {
    let timed = env::args(rt)?.count() > 1;
    for n in SIZES {
        run_size(rt, n, timed)?;
    }
    Ok(())
}

fn main(rt: HostRuntime) -> anyhow::Result<()> {
    run(&rt)
}
