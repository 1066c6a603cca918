// The stretches between two cuts, as rows.
ghost use Rattle.std.specs.Prelude.{◌≡◌, ◌≤◌, length, take};
ghost use Rattle.cuts.specs.Groups.{tuple_by};
ghost use Rattle.cuts.specs.Stretches.{stretches_by};

use crate::picks::Grouping;
use relation::rows::Row;

// The values of the group's row in the columns `by`, then the amount.
fn tuple_by(group: &Row, by: Grouping, amount: i64) -> [i64; 6]
    ensures { result ≡ tuple_by group.now by.entry.columns.now amount }
{
    let mut values = group.pick(by.columns);
    values[by.columns.len()] = amount;
    values
}

// Writes a row for each stretch between two neighbouring cuts that some row holds, in rising order, to the start of the cuts;
// answers how many.
pub fn emit(cuts: &mut [Row], group: &Row, by: Grouping) -> usize
    ensures few { result ≤ length cuts.old }
    ensures stretches { take result cuts.new ≡ stretches_by group.now by.entry.columns.now cuts.old }
{
    let mut made = 0;
    // By index: a row is written over a cut that was read before.
    for i in 1..cuts.len() {
        let cut = cuts[i - 1];
        let next = cuts[i];
        if cut.values[0] > 0 && cut.first < next.first {
            let values = tuple_by(group, by, cut.values[1]);
            cuts[made] = Row {
                first: cut.first,
                end: next.first,
                values,
            };
            made += 1;
        }
    }
    made
}
