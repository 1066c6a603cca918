// Whether a tally fits the columns of a source.
ghost use Rattle.std.specs.List.{list_all};
ghost use Rattle.std.specs.Prelude.{◌≡◌, is_some};
ghost use Rattle.source.specs.Meaning.{kind_of};
ghost use Rattle.tally.specs.Tallying.{measurable, fitting};

use cuts::picks::Grouping;
use relation::kinds::Kind;
use source::asks::Source;
use tallies::rules::Tally;

// Whether the source has each of the columns.
fn has_columns<S: Source>(source: &S, by: &[usize]) -> bool
    ensures { result ≡ list_all (λ c. is_some (kind_of (S.Source.meaning source.now) c)) by.now }
{
    by.iter().all(|c| source.kind(*c).is_some())
}

// Whether the source has the column that the tally is of, of kind n where it is summed.
fn has_measured<S: Source>(source: &S, what: Tally) -> bool
    ensures { result ≡ measurable (S.Source.meaning source.now) what }
{
    match what {
        Tally::Count => true,
        Tally::Sum(c) => source.kind(c) == Some(Kind::Number),
        Tally::Min(c) | Tally::Max(c) => source.kind(c).is_some(),
    }
}

// Whether the source has the grouping columns and the tally's column.
pub fn fits<S: Source>(source: &S, what: Tally, by: Grouping) -> bool
    ensures { result ≡ fitting (S.Source.meaning source.now) what by.entry.columns.now }
{
    has_columns(source, by.columns) && has_measured(source, what)
}
