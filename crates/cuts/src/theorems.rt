// A group by its first few values and one by columns, as the contract of a function.
ghost use Rattle.cuts.specs.Widths.{TuplesFirst, StretchesFirst, RowsFirst};

// In the columns from 1 to the width stand the first few values, so the tuples and the stretches of a group are the same, and
// what `tally_group` says of a day by these columns it says by the first few values.
pub fn first_columns_are_first_values()
    ensures tuples { TuplesFirst }
    ensures stretches { StretchesFirst }
    ensures rows { RowsFirst }
{}
