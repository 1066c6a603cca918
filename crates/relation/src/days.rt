// Days and periods.
ghost use Rattle.std.specs.Prelude.{◌≡◌};
ghost use Rattle.relation.specs.Rows.{is_period};

use crate::bounds::END_OF_DAYS;
use crate::rows::Row;

// The days from `first` up to, and without, `end`. Nothing says that there are any.
#[derive(Clone, Copy, PartialEq, Eq, Debug)]
pub struct Span {
    pub first: u32,
    pub end: u32,
}

impl Span {
    ghost use Rattle.relation.specs.Days.{shared};

    // The days that both spans have, if there is one.
    pub fn meet(self, other: Span) -> Option<Span>
        ensures { result ≡ shared self other }
    {
        let first = self.first.max(other.first);
        let end = self.end.min(other.end);
        (first < end).then_some(Span { first, end })
    }
}

// The days of a row.
impl From<Row> for Span {
    ghost use Rattle.relation.specs.Days.{days_of};

    ghost from_gives = { λ row days. days ≡ days_of row };

    fn from(row: Row) -> Span {
        Span {
            first: row.first,
            end: row.end,
        }
    }
}

// Whether the days from `first` up to, and without, `end` are a period.
pub fn is_period(first: u32, end: u32) -> bool
    ensures { result ≡ is_period first end }
{
    first < end && end <= END_OF_DAYS
}
