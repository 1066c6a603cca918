// The rows of a source, from filled place to filled place.
ghost use Rattle.std.specs.Prelude.{◌≡◌, map};
ghost use Rattle.relation.specs.Stored.{stored};
ghost use Rattle.source.specs.Meaning.{rows_of};

use crate::asks::Source;
use relation::rows::Row;

// The rows of the filled places from a place on, unused values 0.
#[derive(Drop)]
pub struct Filled<'a, S: Source> {
    source: &'a S,
    place: usize,
}

impl<'a, S: Source> Filled<'a, S> {
    ghost use Rattle.source.specs.Filled.{rows_left};

    // All rows of a source, in the order of its places.
    pub fn new(source: &'a S) -> Filled<'a, S>
        ensures { rows_left S.Source.meaning result ≡ map stored (rows_of (S.Source.meaning source.now)) }
    {
        Filled { source, place: 0 }
    }
}

impl<S: Source> Iterator for Filled<'_, S> {
    ghost use Rattle.std.specs.Iterator.{YieldsFirst, item_count};
    ghost use Rattle.source.specs.Filled.{rows_left};

    type Item = Row;

    ghost next_gives = { YieldsFirst (rows_left S.Source.meaning) };

    ghost remaining = { item_count (rows_left S.Source.meaning) };

    fn next(&mut self) -> Option<Row> {
        while self.place < self.source.places() {
            let at = self.place;
            self.place = self.source.seek(at + 1, &[]);
            if let Some(row) = self.source.row(at) {
                return Some(row);
            }
        }
        None
    }
}
