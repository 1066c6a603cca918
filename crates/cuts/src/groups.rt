// One group of a tally.
ghost use Rattle.std.specs.Prelude.{◌≡◌, ℕ, ◌*◌, ◌^◌, ◌<◌, ◌≤◌, length, take, drop, slice_index_or};
ghost use Rattle.std.specs.List.{AllByRecursion as AllOf};
ghost use Rattle.relation.specs.Rows.{Period, Holds};
ghost use Rattle.collect.specs.Areas.{no_row, bare};
ghost use Rattle.cuts.specs.Amounts.{Within};
ghost use Rattle.cuts.specs.Groups.{most_rows, Gives, HeldIn};
ghost use Rattle.cuts.specs.Cuts.{most_cuts};
ghost use Rattle.cuts.specs.Days.{Rises};
ghost use Rattle.cuts.specs.Measured.{measured, cut_days};
ghost use Rattle.cuts.specs.Totals.{Small};

use crate::amounts::add_up;
use crate::bests::{Extreme, compare};
use crate::cuts::write;
use crate::days::ByDay;
use crate::picks::Grouping;
use crate::stretches::emit;
use collect::sorting::sort;
use relation::rows::Row;
use tallies::rules::Tally;
use tree::Node;

// What holds of a group's rows and of its cuts stands in each contract below: both lie within lent rows, and a type around them would
// have to be made anew for each part that is lent on.

// Puts at each cut of a group the number and the amount of the group's rows that hold its day.
fn measure_cuts(group: &[Row], cuts: &mut [Row], what: Tally)
    requires few { length cuts.old ≤ most_cuts }
    requires rises { Rises cuts.old }
    requires small { AllOf Small cuts.old }
    ensures { cuts.new ≡ measured what group.now cuts.old }
{
    match what {
        Tally::Count | Tally::Sum(_) => add_up(cuts),
        Tally::Min(c) => compare(group, cuts, c, Extreme::Least),
        Tally::Max(c) => compare(group, cuts, c, Extreme::Greatest),
    }
}

// Writes the cuts of a group, sorted by day, each with the number and the amount of the group's rows that hold its day.
fn cut_days(group: &[Row], cuts: &mut [Row], nodes: &mut [Node], what: Tally)
    requires room { length cuts.old ≡ 2 * length group.now }
    requires nodes_room { 2 * length group.now ≤ length nodes.old }
    requires few_nodes { length nodes.old < 2 ^ 32 }
    requires few_rows { length group.now ≤ most_rows }
    requires within { AllOf (Within what) group.now }
    ensures { cuts.new ≡ cut_days what group.now }
{
    write(group, cuts, what);
    sort(cuts, nodes, &ByDay);
    measure_cuts(group, cuts, what);
}

// Tallies the rows of one group: writes to the start of `out`, in rising order, one row for each stretch between two neighbouring cuts
// that some row holds, which has the group's values in the columns `by`, then the amount; answers how many. As many entries of `out` as
// the group has cuts, and the nodes, may then hold anything. How many nodes there are stands in the contract: they are an area that the
// caller lends.
pub fn tally_group(
    group: &[Row],
    out: &mut [Row],
    nodes: &mut [Node],
    by: Grouping,
    what: Tally,
) -> usize
    requires some { 0 < length group.now }
    requires room { 2 * length group.now ≤ length out.old }
    requires nodes_room { 2 * length group.now ≤ length nodes.old }
    requires few_nodes { length nodes.old < 2 ^ 32 }
    requires few_rows { length group.now ≤ most_rows }
    requires periods { AllOf (λ w. Period (bare w)) group.now }
    requires within { AllOf (Within what) group.now }
    ensures few { result ≤ 2 * length group.now }
    ensures rest { drop (2 * length group.now) out.new ≡ drop (2 * length group.now) out.old }
    ensures periods { AllOf (λ w. Period (bare w)) (take result out.new) }
    ensures rising { (i j : ℕ) → i < j → j < result → (slice_index_or out.new i no_row).end ≤ (slice_index_or out.new j no_row).first }
    ensures rows { (j d : ℕ) → j < result → Holds (bare (slice_index_or out.new j no_row)) d → Gives what by.entry.columns.now group.now d (slice_index_or out.new j no_row) }
    ensures all { (d : ℕ) → HeldIn group.now d → HeldIn (take result out.new) d }
{
    let cuts = &mut out[..2 * group.len()];
    cut_days(group, cuts, nodes, what);
    emit(cuts, &group[0], by)
}
