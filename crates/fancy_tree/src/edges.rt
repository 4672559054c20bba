//! The numbers at which a set begins and ends, and how copies of a set share them.

ghost use Rattle.std.specs.Prelude.{◌≡◌, IfOk, length};
ghost use Rattle.fancy_tree.specs.CharSet.{IsTable};
ghost use Rattle.fancy_tree.specs.Sets.{has, AreRising};

use crate::table::wide_table;
use std::alloc::{AllocError, Global};
use std::rc::Rc;

/// Edges that copies share.
#[derive(Debug, Drop)]
pub(crate) struct SharedEdges {
    edges: Vec<u32>,
    // which numbers below 2,048 are members; empty where no member is past 255, or no memory was left
    table: Vec<u64>,
    ghost table_is: { IsTable table.items (length table.items) (has edges.items) },
}

/// The edges of a set: those of one set alone, or those that its copies share.
#[derive(Debug, Drop)]
pub(crate) enum Edges {
    Own(Vec<u32>),
    Shared(Rc<SharedEdges>),
}

impl Edges {
    ghost use Rattle.fancy_tree.specs.SharedEdges.{listed};

    /// Where their memory is from.
    pub(crate) fn allocator(&self) -> Global {
        match self {
            Edges::Own(edges) => *edges.allocator(),
            Edges::Shared(shared) => *shared.edges.allocator(),
        }
    }

    /// The edges in order.
    pub(crate) fn as_slice(&self) -> &[u32]
        ensures { result.now ≡ listed self.now }
    {
        match self {
            Edges::Own(edges) => edges,
            Edges::Shared(shared) => &shared.edges,
        }
    }

    /// The same edges once more. Where they are shared this takes no memory.
    pub(crate) fn copied(&self) -> Result<Edges, AllocError>
        ensures { IfOk result (λ copy. listed copy ≡ listed self.now) }
    {
        match self {
            Edges::Own(edges) => Ok(Edges::Own(edges.to_vec(*edges.allocator())?)),
            Edges::Shared(shared) => Ok(Edges::Shared(shared.clone()?)),
        }
    }

    /// The same edges such that copies share them. Where memory for that is refused they are what they were.
    pub(crate) fn shared(self) -> Edges
        requires { AreRising (listed self) }
        ensures { listed result ≡ listed self }
    {
        match self {
            Edges::Own(edges) => Edges::share(edges),
            Edges::Shared(shared) => Edges::Shared(shared),
        }
    }

    /// The table of the numbers below 2,048. Empty where no member is past 255, and where the edges are not shared.
    pub(crate) fn table(&self) -> &[u64]
        ensures { IsTable result.now (length result.now) (has (listed self.now)) }
    {
        match self {
            Edges::Own(_) => &[],
            Edges::Shared(shared) => &shared.table,
        }
    }

    /// These edges such that copies share them, with their table.
    fn share(edges: Vec<u32>) -> Edges
        requires { AreRising edges.items }
        ensures { listed result ≡ edges.items }
    {
        let alloc = *edges.allocator();
        let table = wide_table(alloc, &edges);
        match Rc::new(alloc, SharedEdges { edges, table }) {
            Ok(shared) => Edges::Shared(shared),
            Err(refused) => Edges::Own(refused.value.edges),
        }
    }
}
