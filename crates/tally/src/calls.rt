// Tally: the canonical list of a source's tallied day sets, at the start of the work rows.
ghost use Rattle.std.specs.Prelude.{◌≡◌, ◌*◌, ◌≤◌, true, length};
ghost use Rattle.relation.specs.Bounds.{most_work};
ghost use Rattle.source.specs.Meaning.{rows_of, day_set};
ghost use Rattle.tally.specs.Tallying.{fitting, no_tally, Tallies, TalliesSets};

use crate::checks::fits;
use crate::lists::tally_list;
use collect::collects::collect;
use collect::loads::count_filled;
use cuts::picks::Grouping;
use relation::bounds::MOST_WORK;
use relation::refusals::{Reason, Refusal};
use relation::rows::Row;
use source::asks::Source;
use tallies::rules::Tally;
use tree::Node;

// Tallies a source in areas that count whole and have three entries for each filled place.
fn tally_within<S: Source>(
    source: &S,
    what: Tally,
    by: Grouping,
    rows: &mut [Row],
    index: &mut [Node],
) -> Result<usize, Refusal>
    requires fits { fitting (S.Source.meaning source.now) what by.columns.now ≡ true }
    requires rows_room { 3 * length (rows_of (S.Source.meaning source.now)) ≤ length rows.old }
    requires index_room { 3 * length (rows_of (S.Source.meaning source.now)) ≤ length index.old }
    requires few_rows { length rows.old ≤ most_work }
    requires few_index { length index.old ≤ most_work }
    ensures { TalliesSets what by.entry.columns.now (day_set (S.Source.meaning source.now)) (length rows.old) (length index.old) result rows.new index.new }
{
    let n = collect(source, rows, index)?;
    tally_list(rows, index, n, what, by)
}

// The rows and the index entries are two areas that the caller lends, each of which may be too short by itself.
//
// Leaves the canonical list of the tallied day sets at the start of `rows`, blanks the other rows and all index entries that count, and
// answers the number of rows: on each day one tuple for each group, its values in the columns `by`, then its count, sum, least or
// greatest value. It is refused where a column is missing, a sum is of words or there are more than five grouping columns, then where
// either area has less than three entries for each filled place; that changes nothing. Where on some day a group's sum lies outside
// kind n it is refused and leaves both areas blank.
pub fn tally<S: Source>(
    source: &S,
    what: Tally,
    by: &[usize],
    rows: &mut [Row],
    index: &mut [Node],
) -> Result<usize, Refusal>
    ensures { Tallies (no_tally (S.Source.meaning source.now) what by.now rows.old index.old) what by.now (day_set (S.Source.meaning source.now)) rows.old index.old result rows.new index.new }
{
    let by = Grouping::new(by).ok_or(Reason::Misfit)?;
    if !fits(source, what, by) {
        return Err(Reason::Misfit.into());
    }
    let rows_end = rows.len().min(MOST_WORK);
    let index_end = index.len().min(MOST_WORK);
    let limit = rows_end.min(index_end) / 3;
    if count_filled(source, limit) > limit {
        return Err(Reason::ShortWork.into());
    }
    tally_within(
        source,
        what,
        by,
        &mut rows[..rows_end],
        &mut index[..index_end],
    )
}
