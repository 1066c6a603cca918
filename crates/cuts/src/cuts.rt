// Cuts: the days at which a row begins or ends, each with what changes there.
ghost use Rattle.std.specs.Prelude.{◌≡◌, ◌*◌, length};
ghost use Rattle.std.specs.List.{AllByRecursion as AllOf};
ghost use Rattle.cuts.specs.Cuts.{cut_row, changed, cuts_of};
ghost use Rattle.cuts.specs.Amounts.{Within};

use relation::rows::Row;
use tallies::rules::Tally;

// The row in which a cut is kept: its day, and a number of rows and their amount.
pub fn cut(day: u32, rows: i64, amount: i64) -> Row
    ensures { result ≡ cut_row day rows amount }
{
    Row {
        first: day,
        end: 0,
        values: [rows, amount, 0, 0, 0, 0],
    }
}

// By how much the number of rows and their amount change.
#[derive(Clone, Copy)]
struct Change {
    rows: i64,
    amount: i64,
}

// What a row adds where it begins, and takes away where it ends. The least and the greatest are not found by changes.
fn change_by(row: &Row, what: Tally) -> Change
    ensures { result ≡ changed what row.now }
{
    match what {
        Tally::Count => Change { rows: 1, amount: 1 },
        Tally::Sum(c) => Change {
            rows: 1,
            amount: row.column(c),
        },
        Tally::Min(_) | Tally::Max(_) => Change { rows: 0, amount: 0 },
    }
}

// Writes two cuts for each row of a group.
pub fn write(group: &[Row], cuts: &mut [Row], what: Tally)
    requires room { length cuts.old ≡ 2 * length group.now }
    requires within { AllOf (Within what) group.now }
    ensures { cuts.new ≡ cuts_of what group.now }
{
    // By index: two cuts lie beside each other for each row.
    for (i, row) in group.iter().enumerate() {
        let change = change_by(row, what);
        cuts[2 * i] = cut(row.first, change.rows, change.amount);
        cuts[2 * i + 1] = cut(row.end, -change.rows, -change.amount);
    }
}
