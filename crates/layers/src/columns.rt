// Columns chosen from those of a source. Columns count from 1.
ghost use Rattle.std.specs.Prelude.{◌≡◌, true, false, length, MatchOption};
ghost use Rattle.std.specs.List.{list_all};
ghost use Rattle.source.specs.Meaning.{cell};
ghost use Rattle.layers.specs.Columns.{is_column, are_columns, InPlace};

use relation::bounds::MOST_COLUMNS;
use relation::few::Few;

// Whether each is one of the columns from 1 to `last`.
fn all_columns(columns: &[usize], last: usize) -> bool
    ensures { result ≡ list_all (is_column last) columns.now }
{
    columns.iter().all(|c| 1 <= *c && *c <= last)
}

// Up to six columns, in any order.
#[derive(Clone, Copy)]
pub(crate) struct Columns {
    at: Few<usize, MOST_COLUMNS>,
}

impl Columns {
    ghost use Rattle.layers.specs.Chosen.{chosen};

    // The columns, if there are one to six and each is one of the columns from 1 to `last`.
    pub(crate) fn new(columns: &[usize], last: usize) -> Option<Columns>
        ensures { MatchOption result (are_columns last columns.now ≡ false) (λ s. (are_columns last columns.now ≡ true) × (chosen s ≡ columns.now)) }
    {
        if columns.is_empty() {
            return None;
        }
        // Before the columns are looked at, so that too many are refused at once.
        let at = Few::from_slice(columns, 0)?;
        if !all_columns(columns, last) {
            return None;
        }
        Some(Columns { at })
    }

    pub(crate) fn count(&self) -> usize
        ensures { result ≡ length (chosen self.now) }
    {
        self.at.as_slice().len()
    }

    // The column at place c, which counts from 1.
    pub(crate) fn get(&self, c: usize) -> Option<usize>
        ensures { result ≡ cell (chosen self.now) c }
    {
        self.at.get(c.checked_sub(1)?)
    }

    pub(crate) fn as_slice(&self) -> &[usize]
        ensures { result.now ≡ chosen self.now }
    {
        self.at.as_slice()
    }

    // How many columns from the first on are 1, 2 and so on.
    pub(crate) fn in_place(&self) -> usize
        ensures { InPlace (chosen self.now) result }
    {
        let columns = self.at.as_slice();
        columns
            .iter()
            .enumerate()
            .position(|(i, c)| *c != i + 1)
            .unwrap_or(columns.len())
    }
}
