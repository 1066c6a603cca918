// Grouping columns.
ghost use Rattle.std.specs.Prelude.{◌≡◌, ◌<◌, ◌≤◌, MatchOption, length};
ghost use Rattle.relation.specs.Bounds.{most_columns};

use relation::bounds::MOST_COLUMNS;

// The columns that a tally groups by: so few that the amount finds room behind their values.
#[derive(Clone, Copy)]
pub struct Grouping<'a> {
    pub columns: &'a [usize],
    ghost few: { length columns.now < most_columns },
}

impl<'a> Grouping<'a> {
    // Groups by these columns, if they are few enough. No `then_some`: the value can be made only where the test holds.
    pub fn new(columns: &'a [usize]) -> Option<Grouping<'a>>
        ensures { MatchOption result (most_columns ≤ length columns.now) (λ by. by.columns.now ≡ columns.now) }
    {
        if columns.len() < MOST_COLUMNS {
            Some(Grouping { columns })
        } else {
            None
        }
    }
}
