// The rows of a whole list.
ghost use Rattle.std.specs.Prelude.{◌≡◌, ◌≤◌, ◌++◌, length, take, IfOk};
ghost use Rattle.relation.specs.Bounds.{most_work};
ghost use Rattle.words.specs.Rest.{lines_left};
ghost use Rattle.lists.specs.ListFiles.{read, row_in, rows_in};

use crate::rows::read_row;
use relation::bounds::MOST_WORK;
use relation::kinds::Kind;
use relation::refusals::Reason;
use relation::rows::Row;
use takers::tails::is_blank;
use words::lines::Lines;

// The row of a line, if as many rows as count are not there yet.
fn next_row(rows: &[Row], line: &[u8], kinds: &[Kind]) -> Result<Row, Reason>
    ensures { length rows.now ≤ most_work → rows.now ++ read result ≡ take most_work (rows.now ++ row_in kinds.now line.now) }
{
    let row = read_row(line, kinds)?;
    if rows.len() >= MOST_WORK {
        return Err(Reason::ShortWork);
    }
    Ok(row)
}

// Reads the lines behind the first, and prints a line for each that is refused. The rows are those of the other lines,
// as many as count.
pub fn read_rows(
    rt: &HostRuntime,
    lines: &mut Lines<'_>,
    kinds: &[Kind],
) -> anyhow::Result<Vec<Row>>
    ensures { IfOk result (λ v. v.items ≡ take most_work (rows_in kinds.now (lines_left lines.old))) }
{
    let mut rows = Vec::new(rt.alloc());
    let mut number = 1u64;
    // Tried: `lines.by_ref().enumerate()`, whose proof that the count never overflows did not close.
    while let Some(line) = lines.next() {
        number = number.saturating_add(1);
        if is_blank(line) {
            continue;
        }
        match next_row(rows.as_slice(), line, kinds) {
            Ok(row) => rows.push(row)?,
            Err(reason) => println!(rt; "line {number}: refused {}", reason.number())?,
        }
    }
    Ok(rows)
}
