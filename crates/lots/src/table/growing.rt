// The nodes above the leaves, filled in place from the lowest level to the root.
ghost use Rattle.std.specs.Prelude.{◌≡◌, ◌+◌, ◌*◌, ◌<◌, ◌≤◌};
ghost use Rattle.sponge.specs.Digests.{two_to_one};
ghost use Rattle.lots.specs.Nodes.{node_at, Grown};

use crate::table::Table;
use kinds::kind::Kind;
use sponge::hash::Digest;
use sponge::pair::compress;

impl<K: Kind> Table<K> {
    // The hash of the two nodes below node i.
    pub(crate) fn hash_node(&self, kind: &K, i: usize) -> Digest<K>
        requires { i < 256 }
        ensures { result ≡ two_to_one K.CAPACITY K.DIGEST K.mapping (node_at self.now.nodes.items (2 * i)) (node_at self.now.nodes.items (2 * i + 1)) }
    {
        let left = self.read(2 * i);
        let right = self.read(2 * i + 1);
        compress(kind, left.words(), right.words())
    }

    // Writes each node below `half`, the last first.
    pub(crate) fn grow(&mut self, kind: &K, half: usize)
        requires { half ≤ 256 }
        ensures { Grown K.CAPACITY K.DIGEST K.mapping 1 half self.old.nodes.items self.new.nodes.items }
    {
        for i in (1..half).rev() {
            let hash = self.hash_node(kind, i);
            self.write(i, hash);
        }
    }
}
