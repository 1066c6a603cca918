// How deep the tree gets for days that come in ascending, in descending and in mixed order.
#![tactic(auto)]

ghost use Rattle.std.specs.Prelude.{◌≡◌, ◌^◌, ◌<◌, ◌≤◌, length, IfOk, vec_len, slice_index};
ghost use Rattle.tree.specs.Trees.{Holds, tree_of};
ghost use Rattle.depth.specs.Heights.{height};

use std::alloc::{AllocError, Global};
use std::{fmt, io};
use tree::{Keys, Node, Tree};

const COUNT: u32 = 65_536;

// The order that days come in. An enum, since it is printed as well as asked for its days.
#[derive(Clone, Copy)]
enum Arrival {
    Ascending,
    Descending,
    Mixed,
}

impl Arrival {
    // The day that comes as number `i`.
    fn day(self, i: u32) -> u32 {
        match self {
            Arrival::Ascending => i,
            Arrival::Descending => u32::MAX - i,
            Arrival::Mixed => i.wrapping_mul(2_654_435_769),
        }
    }
}

impl fmt::Display for Arrival {
    fn fmt<W: fmt::Write>(&self, f: &mut fmt::Formatter<W>) -> fmt::Result {
        f.write_str(match self {
            Arrival::Ascending => "ascending",
            Arrival::Descending => "descending",
            Arrival::Mixed => "mixed",
        })
    }
}

// Places that tell days: place k tells the day at k.
#[derive(Clone, Copy)]
struct Days<'a> {
    days: &'a [u32],
}

impl Keys for Days<'_> {
    type Key = u32;

    ghost count = { λ s. length s.days.now };

    ghost told = { λ s k. slice_index s.days.now k };

    fn key(&self, place: u32) -> u32 {
        self.days[place as usize]
    }
}

// The days in the order that they come in.
fn arrive(heap: Global, arrival: Arrival) -> Result<Vec<u32>, AllocError>
    ensures { IfOk result (λ v. vec_len v ≡ 65536) }
{
    (0..COUNT).map(|i| arrival.day(i)).collect(heap)
}

// How many nodes stand on the longest way down from a link.
#[tactic(auto, using(tree::proofs::Walking::parts, tree::proofs::Walking::none_held, crate::proofs::Heights::height_size))]
fn depth(nodes: &[Node], link: u32) -> u32
    requires holds { Holds nodes.now link }
    requires few { length nodes.now < 2 ^ 32 }
    ensures { result ≡ height (tree_of nodes.now link) }
{
    if link == 0 {
        return 0;
    }
    let node = nodes[(link - 1) as usize];
    let left = depth(nodes, node.left);
    let right = depth(nodes, node.right);
    left.max(right) + 1
}

// The depth of the tree over the nodes once all days have come.
#[tactic(auto, using(crate::proofs::Heights::height_size))]
fn measure(nodes: &mut [Node], days: &[u32]) -> u32
    requires room { length days.now ≤ length nodes.old }
    requires few { length nodes.old < 2 ^ 32 }
    ensures { result ≤ length days.now }
{
    let keys = Days { days };
    let root = Tree::fill(nodes, &keys, days.len() as u32).root;
    depth(nodes, root)
}

// The same, with areas for the days and the nodes.
fn depth_after(heap: Global, arrival: Arrival) -> Result<u32, AllocError> {
    let days = arrive(heap, arrival)?;
    let mut nodes = vec![in heap; Node::blank(); COUNT as usize]?;
    Ok(measure(nodes.as_mut_slice(), days.as_slice()))
}

fn main(rt: HostRuntime) -> io::Result<()> {
    for arrival in [Arrival::Ascending, Arrival::Descending, Arrival::Mixed] {
        let depth = depth_after(rt.alloc(), arrival)?;
        println!(rt; "{arrival}: depth {depth}")?;
    }
    Ok(())
}
