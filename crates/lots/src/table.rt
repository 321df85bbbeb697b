ghost use Rattle.std.specs.Prelude.{◌≡◌, ◌<◌, replicate, IfOk, slice_set, vec_len};
ghost use Rattle.lots.specs.Nodes.{node_at};

use kinds::kind::Kind;
use sponge::hash::Digest;
use std::alloc::{AllocError, Global};

pub mod growing;
pub mod path;
pub mod tree;

// A table of 512 nodes in heap order: node 1 is the root, and 2i and 2i + 1 are below node i.
#[derive(Drop)]
pub struct Table<K: Kind> {
    nodes: Vec<Digest<K>>,
    ghost long: { vec_len nodes ≡ 512 },
}

impl<K: Kind> Table<K> {
    // A table of zeros.
    pub(crate) fn new(heap: Global) -> Result<Table<K>, AllocError>
        ensures { IfOk result (λ t. t.nodes.items ≡ replicate 512 (replicate K.DIGEST 0)) }
    {
        let mut nodes = Vec::with_capacity(heap, 512)?;
        for _ in 0..512usize {
            nodes.push(Digest::zeros())?;
        }
        Ok(Table { nodes })
    }

    pub(crate) fn wipe(&mut self)
        ensures { self.new.nodes.items ≡ replicate 512 (replicate K.DIGEST 0) }
    {
        for node in self.nodes.iter_mut() {
            *node = Digest::zeros();
        }
    }

    pub(crate) fn read(&self, i: usize) -> &Digest<K>
        requires { i < 512 }
        ensures { result.now ≡ node_at self.now.nodes.items i }
    {
        &self.nodes[i]
    }

    pub(crate) fn write(&mut self, i: usize, digest: Digest<K>)
        requires { i < 512 }
        ensures { self.new.nodes.items ≡ slice_set self.old.nodes.items i digest }
    {
        self.nodes[i] = digest;
    }
}
