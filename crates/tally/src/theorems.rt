// The theorem on the kinds of a tally's results, as the contract of a function.
ghost use Rattle.tally.specs.Kinds.{TalliedFit};

// Where no sum lies outside kind n, the tallied tuples have the kinds of the grouping columns, then that of the value.
pub fn tallied_tuples_fit()
    ensures { TalliedFit }
{}
