// Rows in listing order coalesced, in place.
ghost use Rattle.std.specs.Prelude.{◌≡◌, ℕ, ◌<◌, ◌≤◌, map, length, get_or, take, slice_index_or};
ghost use Rattle.collect.specs.Areas.{no_row, bare, Rises};
ghost use Rattle.relation.specs.Rows.{Period, on, Lists};

use relation::rows::Row;

// Coalesces rows, which stand in listing order, in place; answers how many rows are left.
// Each row either extends the last row that was written, or is written behind it.
pub fn coalesce(rows: &mut [Row]) -> usize
    requires sorted { (i j : ℕ) → i < j → j < length rows.old → Rises (slice_index_or rows.old i no_row) (slice_index_or rows.old j no_row) }
    requires periods { (i : ℕ) → i < length rows.old → Period (bare (slice_index_or rows.old i no_row)) }
    ensures few { result ≤ length rows.old }
    ensures lists { Lists (map bare (take result rows.new)) (on (map bare rows.old)) }
    ensures drawn { (k : ℕ) → k < result → ((j : ℕ) × ((j < length rows.old) × ((get_or rows.new k no_row).values ≡ (get_or rows.old j no_row).values))) }
{
    if rows.is_empty() {
        return 0;
    }
    let mut last = 0;
    // By index: the library merges neighbours in a Vec alone, and these rows are lent.
    for i in 1..rows.len() {
        let row = rows[i];
        let open = rows[last];
        if open.values == row.values && row.first <= open.end {
            rows[last].end = open.end.max(row.end);
        } else {
            last += 1;
            rows[last] = row;
        }
    }
    last + 1
}
