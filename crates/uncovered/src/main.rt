// Which instruments were out on a day without cover, and at what value?
// uncovered HIRES COVERS VALUES FROM UNTIL: three lists, the instrument first in each, and a stretch of days.
#![tactic(auto)]

use anyhow::anyhow;
use collect::collects::collect_rows;
use lists::files::read_rows;
use lists::header::read_header;
use lists::show::ListText;
use plans::questions::{list_bare, list_out, list_uncovered, list_valued};
use relation::bounds::MOST_WORK;
use relation::columns::Kinds;
use relation::days::Span;
use relation::kinds::Kind;
use relation::refusals::Refusal;
use relation::rows::Row;
use source::tables::Table;
use std::{env, fs};
use words::lines::Lines;
use workspace::Workspace;

// A list as it was read: its kinds, and its rows coalesced.
#[derive(Drop)]
struct List {
    kinds: Kinds,
    rows: Vec<Row>,
}

// Reads the list in a file and coalesces it.
fn load(rt: &HostRuntime, path: &str) -> anyhow::Result<List> {
    let heap = rt.alloc();
    let text = fs::read(rt, path)?;
    let mut lines = Lines::new(text.as_slice());
    let header = read_header(lines.next().unwrap_or(b"")).map_err(Refusal::from)?;
    let kinds = header.kinds;
    let typed = read_rows(rt, &mut lines, kinds.as_slice())?;
    let mut work = Workspace::new(heap, typed.len())?;
    let (rows, index) = work.lend();
    let count = collect_rows(typed.as_slice(), kinds.as_slice(), rows, index)?;
    println!(rt; "{path}: {} rows, coalesced to {count}", typed.len())?;
    Ok(List {
        kinds,
        rows: work.into_list(count),
    })
}

impl List {
    fn open(&self) -> Result<Table<'_>, Refusal> {
        Table::open(self.rows.as_slice(), self.kinds.as_slice())
    }
}

// Prints the list that a step left.
fn show(rt: &HostRuntime, name: &str, kinds: Kinds, rows: &[Row]) -> anyhow::Result<()> {
    let list = ListText {
        name: name.as_bytes(),
        kinds,
        rows,
    };
    print!(rt; "{list}")?;
    Ok(())
}

// Answers the question step by step, and prints each step's list.
fn answer(
    rt: &HostRuntime,
    hires: &List,
    covers: &List,
    values: &List,
    days: Span,
) -> anyhow::Result<()> {
    let out = hires.open()?;
    let covered = covers.open()?;
    let valued = values.open()?;
    // The instrument, and what the list of values has beside it.
    let both = values.kinds;
    let mut instrument = Kinds::new(Kind::Number);
    if let Some(kind) = both.get(0) {
        instrument.push(kind);
    }
    let mut work = Workspace::new(rt.alloc(), MOST_WORK)?;
    println!(rt; "instruments that were out:")?;
    let (rows, index) = work.lend();
    let count = list_out(out, rows, index)?;
    show(rt, "out", instrument, work.list(count))?;
    println!(rt; "of these, without cover:")?;
    let (rows, index) = work.lend();
    let count = list_bare(out, covered, rows, index)?;
    show(rt, "bare", instrument, work.list(count))?;
    println!(rt; "with their values:")?;
    let (rows, index) = work.lend();
    let count = list_valued(out, covered, valued, rows, index)?;
    show(rt, "valued", both, work.list(count))?;
    println!(rt; "from day {} up to day {}:", days.first, days.end)?;
    let (rows, index) = work.lend();
    let count = list_uncovered(out, covered, valued, days, rows, index)?;
    show(rt, "asked", both, work.list(count))
}

fn run(rt: &HostRuntime) -> anyhow::Result<()> {
    let mut args = env::args(rt)?;
    let _program = args.next();
    let (Some(hires), Some(covers), Some(values), Some(first), Some(end)) = (
        args.next(),
        args.next(),
        args.next(),
        args.next(),
        args.next(),
    ) else {
        return Err(anyhow!("usage: uncovered HIRES COVERS VALUES FROM UNTIL"));
    };
    let hires = load(rt, hires.as_str())?;
    let covers = load(rt, covers.as_str())?;
    let values = load(rt, values.as_str())?;
    let first = first.as_str().parse::<u32>()?;
    let end = end.as_str().parse::<u32>()?;
    answer(rt, &hires, &covers, &values, Span { first, end })
}

fn main(rt: HostRuntime) -> anyhow::Result<()> {
    run(&rt)
}
