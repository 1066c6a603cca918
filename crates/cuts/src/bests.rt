// The least or the greatest value of the rows that hold the day of each cut.
ghost use Rattle.std.specs.Prelude.{◌≡◌, map};
ghost use Rattle.cuts.specs.Bests.{better, kept_at, kept_by_row, kept_by_rows};
ghost use Rattle.cuts.specs.Days.{Rises};

use crate::cuts::cut;
use relation::rows::Row;

// Which of two values is kept. An enum: handed in as a closure, what is kept would be a relation in each contract below, and no value.
#[derive(Clone, Copy)]
pub enum Extreme {
    Least,
    Greatest,
}

impl Extreme {
    // The one of two values that is kept.
    fn of(self, a: i64, b: i64) -> i64
        ensures { result ≡ better self a b }
    {
        match self {
            Extreme::Least => a.min(b),
            Extreme::Greatest => a.max(b),
        }
    }
}

// The cut with one value more.
fn keep_at(kept: &Row, value: i64, extreme: Extreme) -> Row
    ensures { result ≡ kept_at extreme value kept.now }
{
    if kept.values[0] > 0 {
        cut(kept.first, 1, extreme.of(kept.values[1], value))
    } else {
        cut(kept.first, 1, value)
    }
}

// Takes the value of a row into the cuts whose days it holds.
fn keep(cuts: &mut [Row], row: &Row, value: i64, extreme: Extreme)
    requires { Rises cuts.old }
    ensures { cuts.new ≡ map (kept_by_row extreme value row.now) cuts.old }
{
    let begun = cuts.partition_point(|cut| cut.first < row.first);
    for cut in &mut cuts[begun..] {
        if cut.first >= row.end {
            break;
        }
        *cut = keep_at(cut, value, extreme);
    }
}

// Takes the values of the rows of a group in column `c` into its cuts.
pub fn compare(group: &[Row], cuts: &mut [Row], c: usize, extreme: Extreme)
    requires { Rises cuts.old }
    ensures { cuts.new ≡ map (kept_by_rows extreme c group.now) cuts.old }
{
    for row in group {
        keep(cuts, row, row.column(c), extreme);
    }
}
