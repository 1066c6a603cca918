// The groups of gathered rows, tallied one after the other.
ghost use Rattle.std.specs.Prelude.{◌*◌, ◌^◌, ◌<◌, ◌≤◌, length, take};
ghost use Rattle.std.specs.List.{AllByRecursion as AllOf};
ghost use Rattle.relation.specs.Rows.{Period};
ghost use Rattle.collect.specs.Areas.{bare};
ghost use Rattle.cuts.specs.Amounts.{Within};
ghost use Rattle.cuts.specs.Groups.{most_rows};
ghost use Rattle.tally.specs.Gathered.{Together, Run};
ghost use Rattle.tally.specs.Results.{Results};

use cuts::groups::tally_group;
use cuts::picks::Grouping;
use relation::rows::Row;
use tallies::rules::Tally;
use tree::Node;

// Where the group of the row at `from` ends: the index of the next row with other grouping values, or the number of rows.
fn group_end(rows: &[Row], by: Grouping, from: usize) -> usize
    requires some { from < length rows.now }
    ensures { Run by.entry.columns.now rows.now from result }
{
    let group = rows[from].pick(by.columns);
    let left = &rows[from..];
    let more = left.iter().position(|row| row.pick(by.columns) != group);
    from + more.unwrap_or(left.len())
}

// Tallies rows whose groups stand together: writes the rows of each group's tally to the start of `out`, one group after the other;
// answers how many. As many entries of `out` as the groups have cuts, and the nodes, may then hold anything.
pub fn tally_groups(
    rows: &[Row],
    out: &mut [Row],
    nodes: &mut [Node],
    by: Grouping,
    what: Tally,
) -> usize
    requires room { 2 * length rows.now ≤ length out.old }
    requires nodes_room { 2 * length rows.now ≤ length nodes.old }
    requires few_nodes { length nodes.old < 2 ^ 32 }
    requires few_rows { length rows.now ≤ most_rows }
    requires together { Together by.columns.now rows.now }
    requires periods { AllOf (λ w. Period (bare w)) rows.now }
    requires within { AllOf (Within what) rows.now }
    ensures few { result ≤ 2 * length rows.now }
    ensures results { Results what by.entry.columns.now rows.now (take result out.new) }
{
    // By index: over `rows.chunk_by` the search does not close the proof.
    let mut from = 0;
    let mut made = 0;
    while from < rows.len() {
        let upto = group_end(rows, by, from);
        made += tally_group(&rows[from..upto], &mut out[made..], nodes, by, what);
        from = upto;
    }
    made
}
