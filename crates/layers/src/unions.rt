// A union: the places of one source, then those of another with the same kinds.
ghost use Rattle.std.specs.Prelude.{◌≡◌, None};
ghost use Rattle.relation.specs.Refusals.{Answers};
ghost use Rattle.layers.specs.Unions.{united, no_union, Unites};
ghost use Rattle.layers.specs.Soundness.{united_sound};

use crate::checks::check_pair;
use relation::kinds::Kind;
use relation::refusals::Refusal;
use relation::rows::Row;
use source::asks::Source;

#[derive(Drop)]
pub struct Union<L: Source, R: Source> {
    left: L,
    right: R,
    ghost allowed: { no_union (L.Source.meaning left) (R.Source.meaning right) ≡ None },
}

impl<L: Source, R: Source> Union<L, R> {
    // The tuples of both sources.
    pub fn new(left: L, right: R) -> Result<Union<L, R>, Refusal>
    where
        L: Drop,
        R: Drop,
        ensures { Answers result (no_union (L.Source.meaning left) (R.Source.meaning right)) (λ s. (s.left ≡ left) × (s.right ≡ right) × Unites (L.Source.meaning left) (R.Source.meaning right)) }
    {
        check_pair(&left, &right, left.places() + right.places())?;
        Ok(Union { left, right })
    }
}

impl<L: Source, R: Source> Source for Union<L, R> {
    ghost meaning = { λ s. united (L.Source.meaning s.left) (R.Source.meaning s.right) };

    ghost sound = { λ s. united_sound (L.Source.meaning s.left) (R.Source.meaning s.right) (L.Source.sound s.left) (R.Source.sound s.right) s.allowed };

    fn columns(&self) -> usize {
        self.left.columns()
    }

    fn places(&self) -> usize {
        self.left.places() + self.right.places()
    }

    fn kind(&self, c: usize) -> Option<Kind> {
        self.left.kind(c)
    }

    fn row(&self, k: usize) -> Option<Row> {
        let n = self.left.places();
        if k < n {
            self.left.row(k)
        } else {
            self.right.row(k - n)
        }
    }

    fn seek(&self, k: usize, lead: &[i64]) -> usize {
        let n = self.left.places();
        if k >= n {
            return n + self.right.seek(k - n, lead);
        }
        let r = self.left.seek(k, lead);
        if r < n {
            r
        } else {
            n + self.right.seek(0, lead)
        }
    }
}
