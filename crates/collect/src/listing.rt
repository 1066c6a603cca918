// Rows put in listing order and coalesced, in place.
ghost use Rattle.std.specs.Prelude.{ℕ, ◌<◌, ◌≤◌, map, length, take, slice_index_or};
ghost use Rattle.std.specs.List.{AllByRecursion as AllOf};
ghost use Rattle.relation.specs.Bounds.{most_columns, most_work};
ghost use Rattle.relation.specs.Rows.{Period, on};
ghost use Rattle.relation.specs.Stored.{meant};
ghost use Rattle.collect.specs.Areas.{no_row, bare, Tidy};
ghost use Rattle.collect.specs.Collects.{HoldsList};

use crate::coalesce::coalesce;
use crate::keys::Listing;
use crate::sorting::sort;
use relation::rows::Row;
use tree::Node;

// Leaves the canonical list of the first `n` rows at the start of `rows`, blanks the other rows and all index
// entries, and answers the number of rows. It does not ask how many columns the rows have: it is the list of
// their day sets at every number of columns past which all values are 0. It takes the whole area and how many are rows, since it blanks the rest.
pub fn list_rows(rows: &mut [Row], index: &mut [Node], n: usize) -> usize
    requires wide { n ≤ length rows.old }
    requires room { n ≤ length index.old }
    requires few { length index.old ≤ most_work }
    requires periods { (i : ℕ) → i < n → Period (bare (slice_index_or rows.old i no_row)) }
    ensures { (c : ℕ) → c ≤ most_columns → AllOf (Tidy c) (take n rows.old) → HoldsList (on (map (meant c) (take n rows.old))) (length rows.old) (length index.old) result rows.new index.new }
{
    let listed = &mut rows[..n];
    sort(listed, index, &Listing);
    let kept = coalesce(listed);
    rows[kept..].fill(Row::blank());
    index.fill(Node::blank());
    kept
}
