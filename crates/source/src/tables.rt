// A table: rows that lie beside each other in a lent area, the other rows of the area being empty places.
ghost use Rattle.std.specs.Prelude.{◌≡◌, ◌+◌, ◌<◌, ◌≤◌, min, true, length, Decides, Some, None, MatchResult};
ghost use Rattle.relation.specs.Bounds.{most_columns};
ghost use Rattle.relation.specs.Few.{items};
ghost use Rattle.relation.specs.Refusals.{Answers};
ghost use Rattle.source.specs.Meaning.{fits};
ghost use Rattle.source.specs.Tables.{table, meant?, all_periods, all_fit, no_rows, no_table, no_part, TableOk, Rising, leading, Leads, LowerBound, NextLed};
ghost use Rattle.relation.specs.Stored.{meant};
ghost use Rattle.relation.specs.Values.{in_kind};
ghost use Rattle.std.specs.List.{list_all, zip};
ghost use Rattle.std.specs.Cmp.Lexicographic.{slice_cmp};
ghost use Rattle.std.specs.Ordering.{is_lt, int_cmp};

use crate::asks::Source;
use relation::bounds::{MOST_COLUMNS, MOST_PLACES};
use relation::columns::Kinds;
use relation::days::is_period;
use relation::kinds::Kind;
use relation::refusals::{Reason, Refusal};
use relation::rows::Row;
use std::cmp::Ordering;

// Whether each row has a period.
fn all_periods(rows: &[Row]) -> bool
    ensures { result ≡ all_periods rows.now }
{
    rows.iter().all(|row| is_period(row.first, row.end))
}

// Whether each value that stands beside a kind is within its bounds.
fn all_hold(kinds: &[Kind], values: &[i64]) -> bool
    ensures { result ≡ list_all (λ p. in_kind p.0 p.1) (zip kinds.now values.now) }
{
    kinds
        .iter()
        .zip(values)
        .all(|(kind, value)| kind.holds(*value))
}

// Whether the row's values are within the bounds of their kinds. That they are few is asked here and below, and kept by no type:
// a caller's slice may be of any length, and a table of too many is refused.
pub fn fits_kinds(row: &Row, kinds: &[Kind]) -> bool
    requires { length kinds.now ≤ most_columns }
    ensures { result ≡ fits kinds.now (meant (length kinds.now) row.now).tuple }
{
    all_hold(kinds, &row.values)
}

// Whether each row's values are within the bounds of their kinds.
fn all_fit(rows: &[Row], kinds: &[Kind]) -> bool
    requires { length kinds.now ≤ most_columns }
    ensures { result ≡ all_fit kinds.now rows.now }
{
    rows.iter().all(|row| fits_kinds(row, kinds))
}

// How the first values of the row's tuple, as many as `lead` has, stand to `lead`.
fn compare_lead(row: &Row, columns: usize, lead: &[i64]) -> Ordering
    requires { columns ≤ most_columns }
    ensures { result ≡ leading (meant columns row.now).tuple lead.now }
{
    row.values[..columns.min(lead.len())].cmp(lead)
}

// Whether the tuple of `next` is below that of `row`.
fn falls(row: &Row, next: &Row, columns: usize) -> bool
    requires { columns ≤ most_columns }
    ensures { result ≡ is_lt (slice_cmp int_cmp (meant columns next.now).tuple (meant columns row.now).tuple) }
{
    compare_lead(next, columns, &row.values[..columns]).is_lt()
}

// Whether from row to row the tuples rise or stay equal.
fn in_order(rows: &[Row], kinds: &[Kind]) -> bool
    requires { length kinds.now ≤ most_columns }
    ensures { Decides result (Rising (table rows.now 0 (length rows.now) kinds.now)) }
{
    rows.is_sorted_by(|row, next| !falls(row, next, kinds.len()))
}

// The kinds, where some rows of an area of so many are a table of them.
fn check_rows(places: usize, rows: &[Row], kinds: &[Kind]) -> Result<Kinds, Reason>
    ensures { MatchResult result (λ k. (no_rows places rows.now kinds.now ≡ None) × (items k ≡ kinds.now)) (λ e. no_rows places rows.now kinds.now ≡ Some e) }
{
    if kinds.is_empty() || kinds.len() > MOST_COLUMNS {
        return Err(Reason::Misfit);
    }
    if !all_periods(rows) {
        return Err(Reason::NoPeriod);
    }
    if !all_fit(rows, kinds) {
        return Err(Reason::OutOfBounds);
    }
    if places > MOST_PLACES {
        return Err(Reason::TooManyPlaces);
    }
    Kinds::from_slice(kinds, Kind::Number).ok_or(Reason::Misfit)
}

#[derive(Clone, Copy)]
pub struct Table<'a> {
    rows: &'a [Row],
    kinds: Kinds,
    start: usize,
    len: usize,
    // The rows are known to be listed: from row to row the tuples rise or stay equal. A flag and no type of its own: a listed table
    // answers the same, only `seek` goes faster.
    listed: bool,
    ghost ok: { TableOk rows.now start len (items kinds) listed },
}

impl<'a> Table<'a> {
    // The `len` rows from `start` on, which are known to be a table and are not looked at; `listed` says that they are known to be listed.
    pub fn new(rows: &'a [Row], start: usize, len: usize, kinds: Kinds, listed: bool) -> Table<'a>
        requires { TableOk rows.now start len (items kinds) listed }
        ensures { (result.rows.now ≡ rows.now) × (result.start ≡ start) × (result.len ≡ len) × (result.kinds ≡ kinds) × (result.listed ≡ listed) }
    {
        Table {
            rows,
            kinds,
            start,
            len,
            listed,
        }
    }

    // A table of all the rows, each looked at first.
    pub fn open(rows: &'a [Row], kinds: &[Kind]) -> Result<Table<'a>, Refusal>
        ensures { Answers result (no_table rows.now kinds.now) (λ t. (t.rows.now ≡ rows.now) × (t.start ≡ 0) × (t.len ≡ length rows.now) × (items t.kinds ≡ kinds.now) × Decides t.listed (Rising (table rows.now 0 (length rows.now) kinds.now))) }
    {
        let few = check_rows(rows.len(), rows, kinds)?;
        let listed = in_order(rows, kinds);
        Ok(Table::new(rows, 0, rows.len(), few, listed))
    }

    // A table of the `len` rows from `start` on, each looked at first, where the other rows are empty places.
    pub fn part(
        rows: &'a [Row],
        start: usize,
        len: usize,
        kinds: &[Kind],
    ) -> Result<Table<'a>, Refusal>
        ensures { Answers result (no_part rows.now start len kinds.now) (λ t. (t.rows.now ≡ rows.now) × (t.start ≡ start) × (t.len ≡ len) × (items t.kinds ≡ kinds.now) × Decides t.listed (Rising (table rows.now start len kinds.now))) }
    {
        let after = &rows[start.min(rows.len())..];
        let part = &after[..len.min(after.len())];
        let few = check_rows(rows.len(), part, kinds)?;
        let listed = in_order(part, kinds);
        Ok(Table::new(rows, start, len, few, listed))
    }

    // How many columns there are.
    fn width(&self) -> usize
        ensures { result ≡ length (items self.now.kinds) }
    {
        self.kinds.as_slice().len()
    }

    // The row at a place that is filled.
    fn held(&self, k: usize) -> Option<Row>
        ensures { meant? (length (items self.now.kinds)) result ≡ (table self.now.rows.now self.now.start self.now.len (items self.now.kinds)).at k }
    {
        if k >= self.start && k - self.start < self.len && k < self.rows.len() {
            Some(self.rows[k])
        } else {
            None
        }
    }

    // The place after the last one that is filled.
    fn past(&self) -> usize
        ensures { result ≡ min (length self.now.rows.now) (self.now.start + self.now.len) }
    {
        self.rows.len().min(self.start.saturating_add(self.len))
    }

    // How place k, which is filled, stands to `lead` by its first values.
    fn compare(&self, k: usize, lead: &[i64]) -> Ordering
        requires after { self.now.start ≤ k }
        requires within { k < min (length self.now.rows.now) (self.now.start + self.now.len) }
        ensures { Leads (table self.now.rows.now self.now.start self.now.len (items self.now.kinds)) lead.now k result }
    {
        compare_lead(&self.rows[k], self.width(), lead)
    }

    // The first place from `from` on that does not lead with less than `lead`.
    fn lower_bound(&self, from: usize, lead: &[i64]) -> usize
        requires known { self.now.listed ≡ true }
        requires after { self.now.start ≤ from }
        requires within { from ≤ min (length self.now.rows.now) (self.now.start + self.now.len) }
        ensures { LowerBound (table self.now.rows.now self.now.start self.now.len (items self.now.kinds)) lead.now from (min (length self.now.rows.now) (self.now.start + self.now.len)) result }
    {
        let width = self.width();
        let below = self.rows[from..self.past()].partition_point(|row| compare_lead(
            row, width, lead,
        ).is_lt());
        from + below
    }

    // The first place from `from` on, which is filled, that begins with `lead`, else the number of places.
    fn find(&self, from: usize, lead: &[i64]) -> usize
        requires known { self.now.listed ≡ true }
        requires after { self.now.start ≤ from }
        requires within { from < min (length self.now.rows.now) (self.now.start + self.now.len) }
        ensures { NextLed (table self.now.rows.now self.now.start self.now.len (items self.now.kinds)) lead.now from result }
    {
        if self.compare(from, lead).is_eq() {
            return from;
        }
        let found = self.lower_bound(from, lead);
        if found < self.past() && self.compare(found, lead).is_eq() {
            found
        } else {
            self.rows.len()
        }
    }
}

impl Source for Table<'_> {
    ghost meaning = { λ s. table s.rows.now s.start s.len (items s.kinds) };

    ghost sound = { λ s. s.ok.sound };

    fn columns(&self) -> usize {
        self.width()
    }

    fn places(&self) -> usize {
        self.rows.len()
    }

    fn kind(&self, c: usize) -> Option<Kind> {
        self.kinds.get(c.checked_sub(1)?)
    }

    fn row(&self, k: usize) -> Option<Row> {
        Some(self.held(k)?.trimmed(self.width()))
    }

    fn seek(&self, k: usize, lead: &[i64]) -> usize {
        let from = k.max(self.start);
        if from >= self.past() {
            k.max(self.rows.len())
        } else if self.listed {
            self.find(from, lead)
        } else {
            from
        }
    }
}
