// Reads a list of rows from standard input and prints it coalesced.
#![tactic(auto)]

use collect::collects::collect_rows;
use lists::files::read_rows;
use lists::header::{Header, read_header};
use lists::show::ListText;
use relation::rows::Row;
use std::io::Read;
use words::lines::Lines;
use workspace::Workspace;

// Prints the rows coalesced.
fn print_coalesced(rt: &HostRuntime, header: Header<'_>, rows: &[Row]) -> anyhow::Result<()> {
    let kinds = header.kinds.as_slice();
    let mut work = Workspace::new(rt.alloc(), rows.len())?;
    let (work_rows, index) = work.lend();
    match collect_rows(rows, kinds, work_rows, index) {
        Ok(count) => {
            println!(rt; "coalesced to {count} rows")?;
            let list = ListText {
                name: header.name,
                kinds: header.kinds,
                rows: work.list(count),
            };
            print!(rt; "{list}")?;
        }
        Err(refusal) => println!(rt; "refused {}", refusal.reason.number())?,
    }
    Ok(())
}

fn run(rt: &HostRuntime) -> anyhow::Result<()> {
    let mut text = Vec::new(rt.alloc());
    rt.stdin().read_to_end(&mut text)?;
    let mut lines = Lines::new(text.as_slice());
    let first = lines.next().unwrap_or(b"");
    match read_header(first) {
        Err(reason) => println!(rt; "line 1: refused {}", reason.number())?,
        Ok(header) => {
            let rows = read_rows(rt, &mut lines, header.kinds.as_slice())?;
            println!(rt; "read {} rows", rows.len())?;
            print_coalesced(rt, header, rows.as_slice())?;
        }
    }
    Ok(())
}

fn main(rt: HostRuntime) -> anyhow::Result<()> {
    run(&rt)
}
