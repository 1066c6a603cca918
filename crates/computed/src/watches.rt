// Watches: a source whose rows are worked out from their places. No row is stored.
ghost use Rattle.std.specs.Prelude.{◌≡◌, ◌≤◌};
ghost use Rattle.relation.specs.Refusals.{Answers};
ghost use Rattle.source.specs.Meaning.{first_of};
ghost use Rattle.computed.specs.Watches.{most_watches, watches, watches_sound, no_watches};

use relation::kinds::Kind;
use relation::refusals::{Reason, Refusal};
use relation::rows::Row;
use source::asks::Source;

// With one more, the last watch would end after the last day.
const MOST_WATCHES: usize = 99_998;

// Place k has the watch that begins on day 10 * k and lasts 25 days. Every third place is empty.
// Two watchmen, 0 and 1, take turns; the first column has the watchman, the second the number k.
#[derive(Clone, Copy)]
pub struct Watches {
    count: usize,
    ghost few: { count ≤ most_watches },
}

impl Watches {
    // So many places; refused where the last watch would have no period.
    pub fn new(count: usize) -> Result<Watches, Refusal>
        ensures { Answers result (no_watches count) (λ s. s.count ≡ count) }
    {
        if count > MOST_WATCHES {
            return Err(Reason::NoPeriod.into());
        }
        Ok(Watches { count })
    }

    // The first day of the watch at place k. No `then_some`: the product is in bounds only where the test holds.
    fn day(&self, k: usize) -> Option<u32>
        ensures { result ≡ first_of (watches self.now.count) k }
    {
        if k < self.count && k % 3 != 2 {
            Some(10 * k as u32)
        } else {
            None
        }
    }
}

impl Source for Watches {
    ghost meaning = { λ s. watches s.count };

    ghost sound = { λ s. watches_sound s.count s.few };

    fn columns(&self) -> usize {
        2
    }

    fn places(&self) -> usize {
        self.count
    }

    fn kind(&self, c: usize) -> Option<Kind> {
        match c {
            1 | 2 => Some(Kind::Number),
            _ => None,
        }
    }

    fn row(&self, k: usize) -> Option<Row> {
        let first = self.day(k)?;
        Some(Row {
            first,
            end: first + 25,
            values: [(k % 2) as i64, k as i64, 0, 0, 0, 0],
        })
    }
}
