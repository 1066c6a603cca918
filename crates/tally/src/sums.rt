// Whether the sums of a tally are numbers.
ghost use Rattle.std.specs.List.{list_all};
ghost use Rattle.std.specs.Prelude.{◌≡◌, ◌<◌};
ghost use Rattle.relation.specs.Bounds.{most_columns};
ghost use Rattle.relation.specs.Values.{in_kind};
ghost use Rattle.relation.specs.declared.kinds.Kind.TheVariants.{Number};
ghost use Rattle.cuts.specs.Amounts.{value};
ghost use Rattle.tally.specs.Results.{sums_fit};

use relation::kinds::Kind;
use relation::rows::Row;
use tallies::rules::Tally;

// Whether each row has a value of kind n at an index.
fn all_numbers(rows: &[Row], at: usize) -> bool
    requires { at < most_columns }
    ensures { result ≡ list_all (λ w. in_kind Number (value at w)) rows.now }
{
    rows.iter().all(|row| Kind::Number.holds(row.values[at]))
}

// Whether what is summed, which stands at an index of each row, is of kind n; where nothing is summed, all is well.
pub fn sums_fit(what: Tally, rows: &[Row], at: usize) -> bool
    requires { at < most_columns }
    ensures { result ≡ sums_fit what at rows.now }
{
    match what {
        Tally::Sum(_) => all_numbers(rows, at),
        Tally::Count | Tally::Min(_) | Tally::Max(_) => true,
    }
}
