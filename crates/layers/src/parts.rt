// A source as a whole, or during a period.
ghost use Rattle.layers.specs.Parts.{part_meaning, part_sound};

use crate::windows::Window;
use relation::kinds::Kind;
use relation::rows::Row;
use source::asks::Source;

// Each question goes to the source that is held: an enum keeps it in place, where a `dyn Source` would have to be lent.
#[derive(Drop)]
pub enum Part<S: Source> {
    Whole(S),
    During(Window<S>),
}

impl<S: Source> Source for Part<S> {
    ghost meaning = { part_meaning S.Source.meaning };

    ghost sound = { part_sound S.Source.meaning S.Source.sound };

    fn columns(&self) -> usize {
        match self {
            Part::Whole(s) => s.columns(),
            Part::During(s) => s.columns(),
        }
    }

    fn places(&self) -> usize {
        match self {
            Part::Whole(s) => s.places(),
            Part::During(s) => s.places(),
        }
    }

    fn kind(&self, c: usize) -> Option<Kind> {
        match self {
            Part::Whole(s) => s.kind(c),
            Part::During(s) => s.kind(c),
        }
    }

    fn row(&self, k: usize) -> Option<Row> {
        match self {
            Part::Whole(s) => s.row(k),
            Part::During(s) => s.row(k),
        }
    }

    fn seek(&self, k: usize, lead: &[i64]) -> usize {
        match self {
            Part::Whole(s) => s.seek(k, lead),
            Part::During(s) => s.seek(k, lead),
        }
    }
}
