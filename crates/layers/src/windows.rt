// A window: the rows below that share a day with a period, on the shared days.
ghost use Rattle.std.specs.Prelude.{◌≡◌, None};
ghost use Rattle.relation.specs.Refusals.{Answers};
ghost use Rattle.layers.specs.Windows.{windowed, no_window, Windows};
ghost use Rattle.layers.specs.Soundness.{windowed_sound};

use relation::days::{Span, is_period};
use relation::kinds::Kind;
use relation::refusals::{Reason, Refusal};
use relation::rows::Row;
use source::asks::Source;

#[derive(Drop)]
pub struct Window<S: Source> {
    source: S,
    days: Span,
    ghost allowed: { no_window days.first days.end ≡ None },
}

impl<S: Source> Window<S> {
    // The source during some days.
    pub fn new(source: S, days: Span) -> Result<Window<S>, Refusal>
    where
        S: Drop,
        ensures { Answers result (no_window days.first days.end) (λ s. (s.source ≡ source) × (s.days ≡ days) × Windows (S.Source.meaning source) days.first days.end) }
    {
        if !is_period(days.first, days.end) {
            return Err(Reason::NoPeriod.into());
        }
        Ok(Window { source, days })
    }
}

impl<S: Source> Source for Window<S> {
    ghost meaning = { λ s. windowed (S.Source.meaning s.source) s.days.first s.days.end };

    ghost sound = { λ s. windowed_sound (S.Source.meaning s.source) s.days.first s.days.end (S.Source.sound s.source) };

    fn columns(&self) -> usize {
        self.source.columns()
    }

    fn places(&self) -> usize {
        self.source.places()
    }

    fn kind(&self, c: usize) -> Option<Kind> {
        self.source.kind(c)
    }

    fn row(&self, k: usize) -> Option<Row> {
        let row = self.source.row(k)?;
        let days = self.days.meet(row.into())?;
        let values = row.values;
        Some(Row {
            first: days.first,
            end: days.end,
            values,
        })
    }

    fn seek(&self, k: usize, lead: &[i64]) -> usize {
        self.source.seek(k, lead)
    }
}
