// A select: the rows below whose tuples meet a condition.
ghost use Rattle.std.specs.Prelude.{◌≡◌, None};
ghost use Rattle.relation.specs.Refusals.{Answers};
ghost use Rattle.relation.specs.Operations.{meets};
ghost use Rattle.layers.specs.Selects.{selected, term_kind, in_bounds, no_select, Selects};
ghost use Rattle.layers.specs.Soundness.{selected_sound};

use crate::kinds::alike;
use relation::conditions::{Condition, Term};
use relation::kinds::Kind;
use relation::refusals::{Reason, Refusal};
use relation::rows::Row;
use source::asks::Source;

// The kind of a term; none of a column that is missing.
fn term_kind<S: Source>(source: &S, term: Term) -> Option<Kind>
    ensures { result ≡ term_kind (S.Source.meaning source.now) term }
{
    match term {
        Term::Number(_) => Some(Kind::Number),
        Term::Word(_) => Some(Kind::Word),
        Term::Column(c) => source.kind(c),
    }
}

// Whether a number or a word is within the bounds of its kind.
fn in_bounds(term: Term) -> bool
    ensures { result ≡ in_bounds term }
{
    match term {
        Term::Number(value) => Kind::Number.holds(value),
        Term::Word(value) => Kind::Word.holds(value),
        Term::Column(_) => true,
    }
}

#[derive(Drop)]
pub struct Select<S: Source> {
    source: S,
    condition: Condition,
    ghost allowed: { no_select (S.Source.meaning source) condition ≡ None },
}

impl<S: Source> Select<S> {
    // The tuples of the source that meet the condition.
    pub fn new(source: S, condition: Condition) -> Result<Select<S>, Refusal>
    where
        S: Drop,
        ensures { Answers result (no_select (S.Source.meaning source) condition) (λ s. (s.source ≡ source) × (s.condition ≡ condition) × Selects (S.Source.meaning source) condition) }
    {
        let kind = source.kind(condition.column);
        if !alike(kind, term_kind(&source, condition.term)) {
            return Err(Reason::Misfit.into());
        }
        if !in_bounds(condition.term) {
            return Err(Reason::OutOfBounds.into());
        }
        Ok(Select { source, condition })
    }

    // Whether the values of a row below meet the condition.
    fn keeps(&self, values: &[i64; 6]) -> bool
        ensures { result ≡ meets self.now.condition values.now }
    {
        let x = values[self.condition.column - 1];
        let y = match self.condition.term {
            Term::Number(value) | Term::Word(value) => value,
            Term::Column(c) => values[c - 1],
        };
        self.condition.sign.compares(x, y)
    }
}

impl<S: Source> Source for Select<S> {
    ghost meaning = { λ s. selected (S.Source.meaning s.source) s.condition };

    ghost sound = { λ s. selected_sound (S.Source.meaning s.source) s.condition (S.Source.sound s.source) };

    fn columns(&self) -> usize {
        self.source.columns()
    }

    fn places(&self) -> usize {
        self.source.places()
    }

    fn kind(&self, c: usize) -> Option<Kind> {
        self.source.kind(c)
    }

    fn row(&self, k: usize) -> Option<Row> {
        self.source.row(k).filter(|row| self.keeps(&row.values))
    }

    fn seek(&self, k: usize, lead: &[i64]) -> usize {
        self.source.seek(k, lead)
    }
}
