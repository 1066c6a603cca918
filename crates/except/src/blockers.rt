// The blockers of a row: the rows of a source that have its tuple.
ghost use Rattle.std.specs.Prelude.{◌≡◌, ◌≤◌, length};
ghost use Rattle.except.specs.Blockers.{blocker, candidate, bars?, sooner, scanned, piece};

use relation::days::Span;
use source::asks::Source;

// Whether the blocker holds the day, or ends on it and is of a lower piece.
fn bars(blocker: Option<Span>, day: u32, lower: bool) -> bool
    ensures { result ≡ bars? day lower blocker }
{
    blocker.is_some_and(|s| s.first <= day && day < s.end || lower && s.end == day)
}

// The blocker's first day if it lies after the day and before `end`, else `end`.
fn sooner(blocker: Option<Span>, day: u32, end: u32) -> u32
    ensures { result ≡ sooner day blocker end }
{
    match blocker {
        Some(s) if day < s.first => s.first.min(end),
        _ => end,
    }
}

// The rows of a source that have a tuple.
#[derive(Drop)]
pub struct Blockers<'a, S: Source> {
    pub source: &'a S,
    pub tuple: &'a [i64],
    ghost whole: { length tuple.now ≡ length (S.Source.meaning source.now).kinds },
}

impl<S: Source> Blockers<'_, S> {
    // The days of the row at place p, if it has the tuple.
    fn get(&self, p: usize) -> Option<Span>
        ensures { result ≡ blocker (S.Source.meaning self.now.source.now) self.now.tuple.now p }
    {
        let row = self.source.row(p)?;
        if &row.values[..self.tuple.len()] == self.tuple {
            Some(row.into())
        } else {
            None
        }
    }

    // Where piece j of a row with this tuple and these days may begin: on the first day,
    // or at the end of the blocker at place j - 1 if that lies inside the days.
    fn candidate(&self, days: Span, j: usize) -> Option<u32>
        ensures { result ≡ candidate (S.Source.meaning self.now.source.now) self.now.tuple.now days j }
    {
        if j == 0 {
            return Some(days.first);
        }
        let end = self.get(j - 1)?.end;
        (days.first < end && end < days.end).then_some(end)
    }

    // The end of the piece of a row that begins on the day: the earliest first day of a blocker after it,
    // or `end` if that comes sooner. None if a blocker holds the day, or one of a piece lower than j ends on it.
    fn piece_end(&self, day: u32, end: u32, j: usize) -> Option<u32>
        ensures { result ≡ scanned (S.Source.meaning self.now.source.now) self.now.tuple.now day end j }
    {
        let n = self.source.places();
        let mut least = end;
        // No iterator: which places `seek` passes over with a lead is left to the source, so what it meets is no list to name.
        let mut p = self.source.seek(0, self.tuple);
        while p < n {
            let found = self.get(p);
            if bars(found, day, p + 1 < j) {
                return None;
            }
            least = sooner(found, day, least);
            p = self.source.seek(p + 1, self.tuple);
        }
        Some(least)
    }

    // Piece j of the days of a row with this tuple: from its candidate on, without the days of the blockers.
    pub fn piece(&self, days: Span, j: usize) -> Option<Span>
        requires { j ≤ (S.Source.meaning self.now.source.now).count }
        ensures { result ≡ piece (S.Source.meaning self.now.source.now) self.now.tuple.now days j }
    {
        let first = self.candidate(days, j)?;
        let end = self.piece_end(first, days.end, j)?;
        Some(Span { first, end })
    }
}
