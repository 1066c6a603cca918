// A project: the rows below with some of their columns, in any order.
ghost use Rattle.std.specs.Prelude.{◌≡◌, None};
ghost use Rattle.relation.specs.Refusals.{Answers};
ghost use Rattle.layers.specs.Chosen.{chosen};
ghost use Rattle.layers.specs.Projects.{projected, no_project, Projects};
ghost use Rattle.layers.specs.Soundness.{projected_sound};

use crate::columns::Columns;
use relation::kinds::Kind;
use relation::refusals::{Reason, Refusal};
use relation::rows::Row;
use source::asks::Source;

#[derive(Drop)]
pub struct Project<S: Source> {
    source: S,
    columns: Columns,
    ghost allowed: { no_project (S.Source.meaning source) (chosen columns) ≡ None },
}

impl<S: Source> Project<S> {
    // The given columns of each tuple of the source; a column may stand twice.
    pub fn new(source: S, columns: &[usize]) -> Result<Project<S>, Refusal>
    where
        S: Drop,
        ensures { Answers result (no_project (S.Source.meaning source) columns.now) (λ s. (s.source ≡ source) × (chosen s.columns ≡ columns.now) × Projects (S.Source.meaning source) columns.now) }
    {
        let columns = Columns::new(columns, source.columns()).ok_or(Reason::Misfit)?;
        Ok(Project { source, columns })
    }
}

impl<S: Source> Source for Project<S> {
    ghost meaning = { λ s. projected (S.Source.meaning s.source) (chosen s.columns) };

    ghost sound = { λ s. projected_sound (S.Source.meaning s.source) (chosen s.columns) (S.Source.sound s.source) s.allowed };

    fn columns(&self) -> usize {
        self.columns.count()
    }

    fn places(&self) -> usize {
        self.source.places()
    }

    fn kind(&self, c: usize) -> Option<Kind> {
        let below = self.columns.get(c)?;
        self.source.kind(below)
    }

    fn row(&self, k: usize) -> Option<Row> {
        let row = self.source.row(k)?;
        let values = row.pick(self.columns.as_slice());
        Some(Row {
            first: row.first,
            end: row.end,
            values,
        })
    }

    // As far as the columns stand where they stand below, so does the lead.
    fn seek(&self, k: usize, lead: &[i64]) -> usize {
        let n = lead.len().min(self.columns.in_place());
        self.source.seek(k, &lead[0..n])
    }
}
