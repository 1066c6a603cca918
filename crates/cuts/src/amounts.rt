// The number of rows and their amount from each cut on.
ghost use Rattle.std.specs.Prelude.{◌≡◌, ◌≤◌, length, pos};
ghost use Rattle.std.specs.List.{AllByRecursion as AllOf};
ghost use Rattle.cuts.specs.Cuts.{most_cuts};
ghost use Rattle.cuts.specs.Totals.{Small, totals};

use crate::cuts::cut;
use relation::rows::Row;

// Puts in place of the changes at each cut what they come to there.
pub fn add_up(cuts: &mut [Row])
    requires few { length cuts.old ≤ most_cuts }
    requires small { AllOf Small cuts.old }
    ensures { cuts.new ≡ totals (pos 0) (pos 0) cuts.old }
{
    let mut rows = 0;
    let mut amount = 0;
    for change in cuts {
        rows += change.values[0];
        amount += change.values[1];
        *change = cut(change.first, rows, amount);
    }
}
