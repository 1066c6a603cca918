// A list of rows tallied in place.
ghost use Rattle.std.specs.Prelude.{◌≡◌, ℕ, ◌*◌, ◌<◌, ◌≤◌, List, map, length, take, replicate};
ghost use Rattle.std.specs.List.{AllByRecursion as AllOf};
ghost use Rattle.relation.specs.Bounds.{most_columns, most_work};
ghost use Rattle.relation.specs.Rows.{SpecRow, Period, Lists};
ghost use Rattle.relation.specs.Sets.{TupleSet};
ghost use Rattle.relation.specs.Stored.{stored, blank_row};
ghost use Rattle.tree.specs.Trees.{blank};
ghost use Rattle.collect.specs.Areas.{bare};
ghost use Rattle.cuts.specs.Amounts.{Within};
ghost use Rattle.tally.specs.Results.{Narrow};
ghost use Rattle.tally.specs.Tallying.{TalliesSets};

use crate::gathers::ByColumns;
use crate::runs::tally_groups;
use crate::sums::sums_fit;
use collect::listing::list_rows;
use collect::sorting::sort;
use cuts::picks::Grouping;
use relation::refusals::{Reason, Refusal};
use relation::rows::Row;
use tallies::rules::Tally;
use tree::Node;

// Blanks both areas.
fn blank_all(rows: &mut [Row], index: &mut [Node])
    ensures rows { rows.new ≡ replicate (length rows.old) blank_row }
    ensures index { index.new ≡ replicate (length index.old) blank }
{
    rows.fill(Row::blank());
    index.fill(Node::blank());
}

// Tallies the first `n` rows, which are the canonical list of some sets: leaves the canonical list of the tallied sets at the start of
// `rows`, blanks all else, and answers the number of rows. It takes the whole areas, since it works behind the first rows. Where a sum lies outside kind n it is refused and blanks both areas.
pub fn tally_list(
    rows: &mut [Row],
    index: &mut [Node],
    n: usize,
    what: Tally,
    by: Grouping,
) -> Result<usize, Refusal>
    requires rows_room { 3 * n ≤ length rows.old }
    requires index_room { 3 * n ≤ length index.old }
    requires few_index { length index.old ≤ most_work }
    requires narrow { Narrow what }
    requires periods { AllOf (λ w. Period (bare w)) (take n rows.old) }
    requires within { AllOf (Within what) (take n rows.old) }
    ensures { (xs : List SpecRow) (f : ℕ → TupleSet) → take n rows.old ≡ map stored xs → Lists xs f → AllOf (λ c. c ≤ most_columns) by.entry.columns.now → TalliesSets what by.entry.columns.now f (length rows.old) (length index.old) result rows.new index.new }
{
    let (listed, out) = rows.split_at_mut(n);
    sort(listed, index, &ByColumns { by });
    let made = tally_groups(listed, out, index, by, what);
    if !sums_fit(what, &out[..made], by.columns.len()) {
        blank_all(rows, index);
        return Err(Reason::SumOutside.into());
    }
    rows.copy_within(n..n + made, 0);
    Ok(list_rows(rows, index, made))
}
