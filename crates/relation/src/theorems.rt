// The theorems on day sets and canonical lists. Each function stands for the theorem that its contract names.
ghost use Rattle.relation.specs.Theorems.{FirstDifference, DaySet, Unique, OneList, Fewest};

// Of two tuples of one length the first column that differs decides.
pub fn first_difference_decides()
    ensures { FirstDifference }
{}

// A tuple is in the day set exactly when a row with that tuple holds the day.
pub fn day_set_is_held()
    ensures { DaySet }
{}

// Two canonical lists have the same day sets exactly when they are equal.
pub fn canonical_is_unique()
    ensures { Unique }
{}

// The sets of all days have at most one canonical list.
pub fn one_list()
    ensures { OneList }
{}

// No list of rows with the day sets of a canonical one is shorter.
pub fn no_list_is_shorter()
    ensures { Fewest }
{}
