ghost use Rattle.std.specs.Prelude.{◌≡◌, ◌*◌, ◌^◌, ◌<◌, ◌≤◌, length};
ghost use Rattle.model.specs.Trees.{sibling};
ghost use Rattle.model.specs.Closed.{siblings_from};

use crate::table::Table;
use kinds::kind::Kind;

// The other child of a node's parent.
fn beside(i: usize) -> usize
    requires { i < 512 }
    ensures { result ≡ sibling i }
{
    if i % 2 == 0 { i + 1 } else { i - 1 }
}

impl<K: Kind> Table<K> {
    // Copies the siblings of a node and of those above it.
    pub(crate) fn path(&self, levels: usize, node: usize, out: &mut [u64])
        requires high { (levels ≤ 8) × ((2 ^ levels ≤ node) × (node < 512)) }
        requires long { length out.old ≡ levels * K.DIGEST }
        ensures { out.new ≡ siblings_from self.now.nodes.items levels node }
    {
        for level in 0..levels {
            let at = level * K::DIGEST;
            let other = beside(node >> level);
            let digest = self.read(other);
            out[at..at + K::DIGEST].copy_from_slice(digest.words());
        }
    }
}
