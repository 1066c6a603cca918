// What a tally computes, and the theorems on tallies. Each function stands for the theorem that its contract names.
ghost use Rattle.tallies.specs.TallyTheorems.{OneValue, TallyRule, OnePerGroup, SetTallied, TallyRoom, RowsTallied};

// What a tally computes over the tuples of a group. The column counts from 1.
#[derive(Clone, Copy, PartialEq, Eq, Debug)]
pub enum Tally {
    Count,
    Sum(usize),
    Min(usize),
    Max(usize),
}

// The value over a set is one value.
pub fn one_value_of_a_set()
    ensures { OneValue }
{}

// A tally has just the tuples that the groups give.
pub fn tally_is_of_groups()
    ensures { TallyRule }
{}

// A tally has one tuple, and so one value, for each group.
pub fn one_value_per_group()
    ensures { OnePerGroup }
{}

// What a tally gives depends only on what is in the set.
pub fn tally_depends_on_the_set()
    ensures { SetTallied }
{}

// The canonical list of a tally has at most two rows for each row that is tallied.
pub fn two_rows_for_each_row()
    ensures { TallyRoom }
{}

// Where no two rows of one tuple share a day, a group's value is that over its rows that hold the day.
pub fn rows_give_the_value()
    ensures { RowsTallied }
{}
