ghost use Rattle.std.specs.Prelude.{◌≡◌, ℕ, ◌^◌, List, length, replicate, IfOk, slice_set};
ghost use Rattle.model.specs.Trees.{tree_value};
ghost use Rattle.model.specs.Lots.{leaf_at};
ghost use Rattle.model.specs.Closed.{all_nodes};
ghost use Rattle.lots.specs.Nodes.{leaves_in};

use crate::closed::ClosedLot;
use crate::table::Table;
use kinds::kind::Kind;
use model::depth::Depth;
use sponge::hash::Digest;
use std::alloc::{AllocError, Global};
use std::marker::Model;

// The leaves of a tree, in a table with room for every depth: leaf k is node 2^depth + k. All else in it is stale.
#[derive(Drop)]
pub struct Leaves<K: Kind> {
    depth: Depth,
    table: Table<K>,
}

// The depth, and the digest at each place.
impl<K: Kind> Model for Leaves<K> {
    ghost Value = { ℕ × List (List ℕ) };

    ghost view = { λ l. (l.depth.levels, leaves_in l.depth.levels l.table.nodes.items) };
}

impl<K: Kind> Leaves<K> {
    // The one leaf of a tree of depth 0.
    pub(crate) fn new(heap: Global) -> Result<Leaves<K>, AllocError>
        ensures { IfOk result (λ l. l ≡ (0, replicate 1 (replicate K.DIGEST 0))) }
    {
        let table = Table::new(heap)?;
        Ok(Leaves {
            depth: Depth::zero(),
            table,
        })
    }

    // Makes all leaves zeros, of a tree of that depth.
    pub(crate) fn make(&mut self, depth: Depth)
        ensures { self.new ≡ (depth.levels, replicate (2 ^ depth.levels) (replicate K.DIGEST 0)) }
    {
        self.table.wipe();
        self.depth = depth;
    }

    pub(crate) fn depth(&self) -> Depth
        ensures { result.levels ≡ self.now.0 }
    {
        self.depth
    }

    // Puts a digest at a place; past the places nothing is put, so that no invariant has to tie a station to the depth.
    pub(crate) fn store(&mut self, place: usize, digest: Digest<K>)
        ensures { self.new ≡ (self.old.0, slice_set self.old.1 place digest) }
    {
        if place < self.depth.places() {
            self.table.write(self.depth.places() + place, digest);
        }
    }

    // The tree value.
    pub(crate) fn root(&self, kind: &K, out: &mut [u64])
        requires { length out.old ≡ K.DIGEST }
        ensures { out.new ≡ tree_value K.CAPACITY K.DIGEST K.mapping self.now.0 (leaf_at K.DIGEST self.now.1) }
    {
        match self.depth.levels() {
            0 => out.copy_from_slice(self.table.read(1).words()),
            levels => out.copy_from_slice(self.table.tree(kind, levels - 1, 1).words()),
        }
    }

    // Fills the nodes above the leaves.
    pub(crate) fn close(self, kind: K) -> ClosedLot<K>
        ensures { result ≡ record { depth = self.0; nodes = all_nodes K.CAPACITY K.DIGEST K.mapping self.0 (leaf_at K.DIGEST self.1) } }
    {
        let Leaves { depth, mut table } = self;
        table.grow(&kind, depth.places());
        ClosedLot { kind, depth, table }
    }
}
