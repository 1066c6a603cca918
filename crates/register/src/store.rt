// The rows that a register was lent, and the directory that shares them out.
ghost use Rattle.std.specs.Prelude.{◌≡◌, ◌≢◌, ℕ, ◌<◌, ◌≤◌, true, false, length, take, drop, get_or, Some, None, MatchOption, MatchResult, slice_index_or};
ghost use Rattle.std.specs.List.{list_all};
ghost use Rattle.relation.specs.Bounds.{most_columns, most_entries};
ghost use Rattle.relation.specs.Refusals.{plain?};
ghost use Rattle.relation.specs.Rows.{on as day_sets};
ghost use Rattle.relation.specs.Few.{items};
ghost use Rattle.relation.specs.Stored.{meant, blank_row};
ghost use Rattle.relation.specs.Values.{word};
ghost use Rattle.collect.specs.Collects.{Collects, counted};
ghost use Rattle.tree.specs.Trees.{blank as blank_node};
ghost use Rattle.layers.specs.Alike.{same_kinds};
ghost use Rattle.relation.specs.declared.refusals.Reason.TheVariants as no;
ghost use Rattle.register.specs.declared.entries.Mark.TheVariants.{Draft, Published};
ghost use Rattle.register.specs.Layout.{total, free, bearer, is_few, is_zero, good_row};
ghost use Rattle.register.specs.State.{held, used, rows_of, Whole, Leaves, added, size_of, mark_of, code_at, mark_at, rows_at, Put, Drafted, Issued, is_there, blanked};
ghost use Rattle.register.specs.Refusals.{err_of, rest_zero, row_no, slip_fits, put_no, draft_no, drop_no, work_no, show_no, show_text, Shown};

use crate::entries::{Directory, Entry, Mark, Name};
use crate::places::{close, find, open, replace, spare, start, sum};
use crate::slips::Slip;
use crate::works::{blank_work, coalesce_part};
use listing::list::write_list;
use relation::bounds::MOST_STORED;
use relation::columns::Kinds;
use relation::days::is_period;
use relation::kinds::Kind;
use relation::refusals::{Reason, Refusal};
use relation::rows::Row;
use source::tables::fits_kinds;
use tree::Node;

// The laws speak of any store, and its facts fail between the writes of the lent rows and of the directory: so the register keeps them.
#[derive(Drop)]
pub struct Store<'a> {
    pub(crate) rows: &'a mut [Row],
    pub(crate) directory: Directory,
}

// The kinds, where they are those of one to six columns.
fn few(kinds: &[Kind]) -> Option<Kinds>
    ensures { MatchOption result (is_few kinds.now ≡ false) (λ k. (is_few kinds.now ≡ true) × (items k ≡ kinds.now)) }
{
    if kinds.is_empty() {
        return None;
    }
    Kinds::from_slice(kinds, Kind::Number)
}

// Whether every value is 0.
fn all_zero(values: &[i64]) -> bool
    ensures { result ≡ list_all is_zero values.now }
{
    values.iter().all(|value| *value == 0)
}

// Whether every value past the first `columns` is 0.
fn rest_zero(row: &Row, columns: usize) -> bool
    requires { columns ≤ most_columns }
    ensures { result ≡ rest_zero columns row.now }
{
    all_zero(&row.values[columns..])
}

// Whether the given kinds are those of the columns.
fn same_kinds(kinds: &[Kind], given: &[Kind]) -> bool
    ensures { result ≡ same_kinds kinds.now given.now }
{
    kinds == given
}

// Whether a row of the given kinds may stand in a relation of these kinds.
fn check_row(kinds: &[Kind], given: &[Kind], row: &Row) -> Result<(), Reason>
    requires { length kinds.now ≤ most_columns }
    ensures { err_of result ≡ row_no kinds.now given.now row.now }
{
    if !same_kinds(kinds, given) {
        return Err(Reason::Misfit);
    }
    if !is_period(row.first, row.end) {
        return Err(Reason::NoPeriod);
    }
    if !fits_kinds(row, kinds) {
        return Err(Reason::OutOfBounds);
    }
    if !rest_zero(row, kinds.len()) {
        return Err(Reason::UnusedValue);
    }
    Ok(())
}

// That a place stands as a draft is a fact of the store and the place together, and places are handed on inside this crate alone: so it stands in contracts.
impl<'a> Store<'a> {
    // The place of what has the name and the mark.
    fn place(&self, name: Name, mark: Mark) -> Option<usize>
        requires { Whole self.now }
        ensures { MatchOption result (mark_of (held self.now name.code) ≢ Some mark) (λ i. (mark_of (held self.now name.code) ≡ Some mark) × (i < most_entries) × (mark_at self.now i ≡ mark) × (code_at self.now i ≡ name.code)) }
    {
        let i = find(&self.directory.entries, name)?;
        self.directory.at(i).is_marked(mark).then_some(i)
    }

    // The place of the draft that the slip is for. The number is the register's own, and the slip comes back from a caller.
    pub fn draft_of(&self, number: u64, slip: &Slip) -> Option<usize>
        requires { Whole self.now }
        ensures { MatchOption result (slip_fits number self.now slip.now ≡ false) (λ i. (slip_fits number self.now slip.now ≡ true) × (i < most_entries) × (mark_at self.now i ≡ Draft) × (code_at self.now i ≡ slip.now.name.code)) }
    {
        if slip.register != number {
            return None;
        }
        self.place(slip.name, Mark::Draft)
    }

    // The place of the published relation of that name.
    pub fn published_at(&self, name: &[u8]) -> Option<usize>
        requires { Whole self.now }
        ensures { MatchOption result (drop_no self.now name.now ≡ Some no.Name) (λ i. (drop_no self.now name.now ≡ None) × (i < most_entries) × (mark_at self.now i ≡ Published) × (code_at self.now i ≡ word name.now)) }
    {
        let name = Name::try_from(name).ok()?;
        self.place(name, Mark::Published)
    }

    // Where the rows of an entry begin, and the entry.
    fn laid(&self, i: usize) -> (usize, Entry)
        requires whole { Whole self.now }
        requires within { i < most_entries }
        ensures start { result.0 ≡ total (take i self.now.directory.entries) }
        ensures entry { result.1 ≡ get_or self.now.directory.entries i free }
    {
        let at = start(&self.directory.entries, i);
        (at, self.directory.at(i))
    }

    // Writes the text of a published relation, and answers how many bytes it has.
    pub fn show(&self, name: &[u8], output: &mut [u8]) -> Result<usize, Refusal>
        requires { Whole self.now }
        ensures refused { err_of result ≡ plain? (show_no self.now name.now output.old) }
        ensures after { MatchResult result (λ k. Shown (show_text self.now name.now) k output.old output.new) (λ _. output.new ≡ output.old) }
    {
        let i = self.published_at(name).ok_or(Reason::Name)?;
        let (at, entry) = self.laid(i);
        let rows = &self.rows[at..at + entry.count];
        write_list(name, entry.kinds.as_slice(), rows, output)
    }

    // Adds a row to the rows of an entry, and answers how many it has then.
    fn add(&mut self, i: usize, row: Row) -> usize
        requires whole { Whole self.old }
        requires within { i < most_entries }
        requires draft { mark_at self.old i ≡ Draft }
        requires room { used self.old < rows_of self.old }
        requires good { good_row (items (get_or self.old.directory.entries i free).kinds) (meant (length (items (get_or self.old.directory.entries i free).kinds)) row) ≡ true }
        ensures whole { Whole self.new }
        ensures leaves { Leaves self.old self.new (code_at self.old i) (added row (held self.old (code_at self.old i))) }
        ensures size { result ≡ size_of (held self.new (code_at self.old i)) }
    {
        let used = sum(&self.directory.entries);
        let at = start(&self.directory.entries, i + 1);
        open(&mut self.rows[at..used + 1], row);
        self.directory.grow(i)
    }

    // Frees the rows of an entry and gives it up, and answers how many there were.
    pub fn clear(&mut self, i: usize) -> usize
        requires whole { Whole self.old }
        requires within { i < most_entries }
        requires stands { bearer (slice_index_or self.old.directory.entries i free) (code_at self.old i) ≡ true }
        ensures whole { Whole self.new }
        ensures leaves { Leaves self.old self.new (code_at self.old i) None }
        ensures size { result ≡ size_of (held self.old (code_at self.old i)) }
    {
        let used = sum(&self.directory.entries);
        let (at, entry) = self.laid(i);
        self.directory.clear(i);
        close(&mut self.rows[at..used], entry.count);
        entry.count
    }

    // Leaves the canonical list of a draft's rows in the work area, and answers how many rows it has.
    fn coalesce(&self, i: usize, work: &mut [Row], index: &mut [Node]) -> Result<usize, Refusal>
        requires whole { Whole self.now }
        requires within { i < most_entries }
        requires draft { mark_at self.now i ≡ Draft }
        ensures { Collects (work_no (length (rows_at self.now i)) work.old index.old) (day_sets (rows_at self.now i)) work.old index.old result work.new index.new }
    {
        let capacity = self.capacity();
        let (at, entry) = self.laid(i);
        let rows = &self.rows[..capacity];
        coalesce_part(rows, at, entry.count, entry.kinds, work, index)
    }

    // Puts the canonical list of a draft's rows, which it leaves in the work area too, in their place, marks it
    // as published, and answers how many rows it has.
    fn issue(&mut self, i: usize, work: &mut [Row], index: &mut [Node]) -> Result<usize, Refusal>
        requires whole { Whole self.old }
        requires within { i < most_entries }
        requires draft { mark_at self.old i ≡ Draft }
        ensures whole { Whole self.new }
        ensures refused { err_of result ≡ plain? (work_no (size_of (held self.old (code_at self.old i))) work.old index.old) }
        ensures after { MatchResult result (λ k. Issued self.old self.new (code_at self.old i) k) (λ _. self.new ≡ self.old) }
        ensures work { drop (counted work.old) work.new ≡ drop (counted work.old) work.old }
        ensures index { drop (counted index.old) index.new ≡ drop (counted index.old) index.old }
    {
        let kept = self.coalesce(i, work, index)?;
        let used = sum(&self.directory.entries);
        let (at, entry) = self.laid(i);
        replace(&mut self.rows[at..used], entry.count, &work[..kept]);
        self.directory.publish(i, kept);
        Ok(kept)
    }

    // Coalesces a draft and publishes it, and answers how many rows it has. The work area is blank then.
    pub fn publish(
        &mut self,
        i: usize,
        work: &mut [Row],
        index: &mut [Node],
    ) -> Result<usize, Refusal>
        requires whole { Whole self.old }
        requires within { i < most_entries }
        requires draft { mark_at self.old i ≡ Draft }
        ensures whole { Whole self.new }
        ensures refused { err_of result ≡ plain? (work_no (size_of (held self.old (code_at self.old i))) work.old index.old) }
        ensures after { MatchResult result (λ k. Issued self.old self.new (code_at self.old i) k) (λ _. self.new ≡ self.old) }
        ensures work { work.new ≡ blanked blank_row work.old }
        ensures index { index.new ≡ blanked blank_node index.old }
    {
        let kept = self.issue(i, work, index);
        blank_work(work, index);
        kept
    }

    // How many rows there are to share.
    fn capacity(&self) -> usize
        ensures { result ≡ rows_of self.now }
    {
        self.rows.len().min(MOST_STORED)
    }

    // Whether the name stands for something.
    fn has(&self, name: Name) -> bool
        requires { Whole self.now }
        ensures is { result ≡ is_there (held self.now name.code) }
        ensures none { result ≡ false → (k : ℕ) → bearer (slice_index_or self.now.directory.entries k free) name.code ≡ false }
    {
        find(&self.directory.entries, name).is_some()
    }

    // Begins a draft, and answers a slip for it.
    pub fn draft(&mut self, number: u64, name: &[u8], kinds: &[Kind]) -> Result<Slip, Refusal>
        requires { Whole self.old }
        ensures whole { Whole self.new }
        ensures refused { err_of result ≡ plain? (draft_no self.old name.now kinds.now) }
        ensures after { MatchResult result (λ slip. (slip.register ≡ number) × (slip.name.code ≡ word name.now) × Drafted self.old self.new (word name.now) kinds.now) (λ _. self.new ≡ self.old) }
    {
        let name = Name::try_from(name)?;
        if self.has(name) {
            return Err(Reason::Name.into());
        }
        let kinds = few(kinds).ok_or(Reason::Misfit)?;
        let i = spare(&self.directory.entries).ok_or(Reason::NoEntry)?;
        self.directory.begin(i, Entry::draft(name, kinds));
        Ok(Slip {
            register: number,
            name,
        })
    }

    // Adds a row to the draft, and answers how many it has then.
    pub fn put(
        &mut self,
        number: u64,
        slip: &Slip,
        row: Row,
        kinds: &[Kind],
    ) -> Result<usize, Refusal>
        requires { Whole self.old }
        ensures whole { Whole self.new }
        ensures refused { err_of result ≡ plain? (put_no number self.old slip.now row kinds.now) }
        ensures after { MatchResult result (λ k. Put self.old self.new slip.now.name.code row k) (λ _. self.new ≡ self.old) }
    {
        let i = self.draft_of(number, slip).ok_or(Reason::SlipMisfit)?;
        let entry = self.directory.at(i);
        check_row(entry.kinds.as_slice(), kinds, &row)?;
        if sum(&self.directory.entries) >= self.capacity() {
            return Err(Reason::NoRow.into());
        }
        Ok(self.add(i, row))
    }
}
