// Where things lie in a directory and in the rows.
ghost use Rattle.std.specs.Prelude.{◌≡◌, ◌-◌, ◌<◌, ◌≤◌, ◌∷◌, ◌++◌, length, take, drop, replicate};
ghost use Rattle.relation.specs.Stored.{blank_row};
ghost use Rattle.relation.specs.Bounds.{most_stored};
ghost use Rattle.register.specs.Layout.{total, first_free, Finds};

use crate::entries::{Entry, Mark, Name};
use relation::rows::Row;

// The place of the entry that bears the name.
pub fn find(entries: &[Entry], name: Name) -> Option<usize>
    ensures { Finds entries.now name.code result }
{
    entries.iter().position(|e| e.answers_to(name))
}

// The first place that is not in use.
pub fn spare(entries: &[Entry]) -> Option<usize>
    ensures { result ≡ first_free entries.now }
{
    entries.iter().position(|e| e.mark == Mark::Free)
}

// How many rows belong to the entries.
pub fn sum(entries: &[Entry]) -> usize
    requires { total entries.now ≤ most_stored }
    ensures { result ≡ total entries.now }
{
    entries.iter().map(|e| e.count).sum()
}

// How many rows belong to the entries before a place.
pub fn start(entries: &[Entry], i: usize) -> usize
    requires within { i ≤ length entries.now }
    requires fits { total entries.now ≤ most_stored }
    ensures { result ≡ total (take i entries.now) }
{
    sum(&entries[..i])
}

// Writes the row before the others, and moves these on by one, over the last, which is free.
pub fn open(rows: &mut [Row], row: Row)
    requires { 0 < length rows.old }
    ensures { rows.new ≡ row ∷ take (length rows.old - 1) rows.old }
{
    rows.rotate_right(1);
    rows[0] = row;
}

// Takes the first `count` rows out, moves the others back, and blanks the end.
pub fn close(rows: &mut [Row], count: usize)
    requires { count ≤ length rows.old }
    ensures { rows.new ≡ drop count rows.old ++ replicate count blank_row }
{
    rows.rotate_left(count);
    let kept = rows.len() - count;
    rows[kept..].fill(Row::blank());
}

// Writes `new` in the place of the first of `count` rows, takes the others of those out, moves the rest back,
// and blanks the end.
pub fn replace(rows: &mut [Row], count: usize, new: &[Row])
    requires within { count ≤ length rows.old }
    requires fits { length new.now ≤ count }
    ensures { rows.new ≡ new.now ++ (drop count rows.old ++ replicate (count - length new.now) blank_row) }
{
    let kept = new.len();
    rows[..kept].copy_from_slice(new);
    close(&mut rows[kept..], count - kept);
}
