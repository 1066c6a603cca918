// Work areas for programs. The library crates allocate nothing: they work in areas that their caller lends.
#![tactic(auto)]

ghost use Rattle.std.specs.Prelude.{◌≡◌, take, IfOk};
ghost use Rattle.workspace.specs.Areas.{Blank};

use relation::rows::Row;
use std::alloc::{AllocError, Global};
use tree::Node;

// The rows that a call works in and leaves its list in, and the index that it needs.
#[derive(Drop)]
pub struct Workspace {
    rows: Vec<Row>,
    index: Vec<Node>,
}

impl Workspace {
    // Blank areas with room for `places` rows.
    pub fn new(heap: Global, places: usize) -> Result<Workspace, AllocError>
        ensures { IfOk result (Blank places) }
    {
        Ok(Workspace {
            rows: vec![in heap; Row::blank(); places]?,
            index: vec![in heap; Node::blank(); places]?,
        })
    }

    // Lends both areas.
    pub fn lend(&mut self) -> (&mut [Row], &mut [Node])
        ensures rows { result.0.now ≡ self.old.rows.items }
        ensures index { result.1.now ≡ self.old.index.items }
    {
        (self.rows.as_mut_slice(), self.index.as_mut_slice())
    }

    // The list that a call left: the first `count` rows.
    pub fn list(&self, count: usize) -> &[Row]
        ensures { result.now ≡ take count self.now.rows.items }
    {
        let rows = self.rows.as_slice();
        &rows[..count.min(rows.len())]
    }

    // The same list to keep, in the memory that it stands in; the index is given up.
    pub fn into_list(self, count: usize) -> Vec<Row>
        ensures { result.items ≡ take count self.rows.items }
    {
        let Workspace { mut rows, index: _ } = self;
        rows.truncate(count);
        rows
    }
}
