// Stored rows.
ghost use Rattle.std.specs.Prelude.{◌≡◌, pos};
ghost use Rattle.relation.specs.Bounds.{most_columns};
ghost use Rattle.relation.specs.Operations.{picked};
ghost use Rattle.relation.specs.Sets.{column};
ghost use Rattle.relation.specs.Stored.{blank_row, firsts, stored, meant};

use crate::bounds::MOST_COLUMNS;

// A tuple with the days from `first` up to, and without, `end`. Unused values are 0.
#[derive(Clone, Copy, PartialEq, Eq, Debug)]
pub struct Row {
    pub first: u32,
    pub end: u32,
    pub values: [i64; 6],
}

impl Row {
    // The blank row: zero in every field.
    pub fn blank() -> Row
        ensures { result ≡ blank_row }
    {
        Row {
            first: 0,
            end: 0,
            values: [0; 6],
        }
    }

    // The same row with every value past the first `columns` set to 0.
    pub fn trimmed(&self, columns: usize) -> Row
        ensures { result ≡ stored (meant columns self.now) }
    {
        let kept = columns.min(MOST_COLUMNS);
        let mut values = [0; 6];
        values[..kept].copy_from_slice(&self.values[..kept]);
        Row {
            first: self.first,
            end: self.end,
            values,
        }
    }

    // The value of column c, which counts from 1, and 0 past the last; column 0 is read as the first.
    pub fn column(&self, c: usize) -> i64
        ensures { result ≡ column c self.now.values }
    {
        self.values.get(c.saturating_sub(1)).copied().unwrap_or(0)
    }

    // The values of the columns, at most six of them, then zeros.
    pub fn pick(&self, columns: &[usize]) -> [i64; 6]
        ensures { result ≡ firsts most_columns (picked columns.now self.now.values) (pos 0) }
    {
        let mut picks = [0; 6];
        for (i, c) in columns[..columns.len().min(MOST_COLUMNS)]
            .iter()
            .enumerate()
        {
            picks[i] = self.column(*c);
        }
        picks
    }
}
