// Collect: the canonical list of a source's day sets, at the start of the work rows.
ghost use Rattle.std.specs.Prelude.{length};
ghost use Rattle.source.specs.Tables.{table};
ghost use Rattle.source.specs.Meaning.{day_set};
ghost use Rattle.collect.specs.Collects.{no_collect, no_list, Collects};

use crate::listing::list_rows;
use crate::loads::{count_filled, load_rows};
use relation::bounds::MOST_WORK;
use relation::kinds::Kind;
use relation::refusals::{Reason, Refusal};
use relation::rows::Row;
use source::asks::Source;
use source::tables::Table;
use tree::Node;

// A work area is two areas, rows and index entries, that the caller lends: each may be too short by itself, and no type holds both.
//
// Leaves the canonical list of the source's day sets at the start of `rows`, blanks the other rows and all
// index entries that count, and answers the number of rows. It needs as many of both as the source has
// filled places; where either is shorter it is refused and changes nothing.
pub fn collect<S: Source>(
    source: &S,
    rows: &mut [Row],
    index: &mut [Node],
) -> Result<usize, Refusal>
    ensures { Collects (no_collect (S.Source.meaning source.now) rows.old index.old) (day_set (S.Source.meaning source.now)) rows.old index.old result rows.new index.new }
{
    let rows_end = rows.len().min(MOST_WORK);
    let index_end = index.len().min(MOST_WORK);
    let limit = rows_end.min(index_end);
    let n = count_filled(source, limit);
    if n > limit {
        return Err(Reason::ShortWork.into());
    }
    load_rows(source, rows);
    let kept = list_rows(&mut rows[..rows_end], &mut index[..index_end], n);
    Ok(kept)
}

// Collects plain rows of some kinds, each looked at first.
pub fn collect_rows(
    rows: &[Row],
    kinds: &[Kind],
    work: &mut [Row],
    index: &mut [Node],
) -> Result<usize, Refusal>
    ensures { Collects (no_list rows.now kinds.now work.old index.old) (day_set (table rows.now 0 (length rows.now) kinds.now)) work.old index.old result work.new index.new }
{
    let table = Table::open(rows, kinds)?;
    collect(&table, work, index)
}
