// What a source answers.
ghost use Rattle.std.specs.Prelude.{◌≡◌, ℕ, ◌<◌, ◌≤◌, length};
ghost use Rattle.source.specs.Meaning.{Meaning, Sound, kind_of, first_of, end_of, value_of, row_of, NoneLed};

use relation::kinds::Kind;
use relation::rows::Row;

// A relation that is questioned: how many columns and places it has, and what stands at a place.
// Columns count from 1 and places from 0. A question past the last column or place, of column 0
// or of an empty place is answered with none.
pub trait Source {
    // The kinds and the places, each empty or filled with one row.
    ghost meaning: { Self → Meaning };

    // Every source keeps the bounds of kinds, places, periods and values.
    ghost sound: { (s : Self) → Sound (meaning s) };

    fn columns(&self) -> usize
        ensures { result ≡ length (meaning self.now).kinds };

    fn places(&self) -> usize
        ensures { result ≡ (meaning self.now).count };

    fn kind(&self, c: usize) -> Option<Kind>
        ensures { result ≡ kind_of (meaning self.now) c };

    // The whole row at a place, unused values 0.
    fn row(&self, k: usize) -> Option<Row>
        ensures { result ≡ row_of (meaning self.now) k };

    fn first(&self, k: usize) -> Option<u32>
        ensures { result ≡ first_of (meaning self.now) k }
    {
        Some(self.row(k)?.first)
    }

    fn end(&self, k: usize) -> Option<u32>
        ensures { result ≡ end_of (meaning self.now) k }
    {
        Some(self.row(k)?.end)
    }

    fn value(&self, k: usize, c: usize) -> Option<i64>
        ensures { result ≡ value_of (meaning self.now) k c }
    {
        let row = self.row(k)?;
        if c >= 1 && c <= self.columns() {
            Some(row.values[c - 1])
        } else {
            None
        }
    }

    // A place from k on such that no filled place before it begins with the values `lead`.
    // With no values it passes over empty places.
    fn seek(&self, k: usize, lead: &[i64]) -> usize
        ensures { NoneLed (meaning self.now) lead.now k result }
    {
        k
    }
}
