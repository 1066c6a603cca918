// Work areas: rows and an index, two areas that a caller lends, each of which can be too short by itself.
ghost use Rattle.std.specs.List.{list_all};
ghost use Rattle.std.specs.Prelude.{◌≡◌, ◌+◌, ◌≤◌, true, length};
ghost use Rattle.relation.specs.Bounds.{most_stored};
ghost use Rattle.relation.specs.Few.{items};
ghost use Rattle.relation.specs.Rows.{on as day_sets};
ghost use Rattle.relation.specs.Stored.{blank_row};
ghost use Rattle.collect.specs.Collects.{Collects};
ghost use Rattle.tree.specs.Trees.{blank as blank_node};
ghost use Rattle.register.specs.Layout.{part_of, is_few, good_row};
ghost use Rattle.register.specs.State.{blanked};
ghost use Rattle.register.specs.Refusals.{work_no};

use collect::collects::collect;
use relation::bounds::MOST_WORK;
use relation::columns::Kinds;
use relation::refusals::Refusal;
use relation::rows::Row;
use source::tables::Table;
use tree::Node;

// Leaves the canonical list of the `len` rows from `start` on at the start of the work rows,
// and answers how many rows it has. The rows were looked at when they were put in, so the table is made without a second look; by the
// rules a stored table has one place for each row of the capacity.
pub fn coalesce_part(
    rows: &[Row],
    start: usize,
    len: usize,
    kinds: Kinds,
    work: &mut [Row],
    index: &mut [Node],
) -> Result<usize, Refusal>
    requires within { start + len ≤ length rows.now }
    requires places { length rows.now ≤ most_stored }
    requires few { is_few (items kinds) ≡ true }
    requires good { list_all (good_row (items kinds)) (part_of (items kinds) start len rows.now) ≡ true }
    ensures { Collects (work_no (length (part_of (items kinds) start len rows.now)) work.old index.old) (day_sets (part_of (items kinds) start len rows.now)) work.old index.old result work.new index.new }
{
    let table = Table::new(rows, start, len, kinds, false);
    collect(&table, work, index)
}

// Blanks the part of a work area that counts. One call for any area would have to ask that the entry's clone cannot fail.
pub fn blank_work(work: &mut [Row], index: &mut [Node])
    ensures work { work.new ≡ blanked blank_row work.old }
    ensures index { index.new ≡ blanked blank_node index.old }
{
    let rows_end = work.len().min(MOST_WORK);
    work[..rows_end].fill(Row::blank());
    let index_end = index.len().min(MOST_WORK);
    index[..index_end].fill(Node::blank());
}
