ghost use Rattle.std.specs.Prelude.{◌≡◌, ◌+◌, ◌-◌, ◌^◌, ◌<◌, ◌≤◌};
ghost use Rattle.lots.specs.Nodes.{under};

use crate::table::Table;
use kinds::kind::Kind;
use sponge::hash::Digest;
use sponge::pair::compress;

impl<K: Kind> Table<K> {
    // Node i, worked out from the nodes below it that have `level` levels between.
    pub(crate) fn tree(&self, kind: &K, level: usize, i: usize) -> Digest<K>
        requires { (level ≤ 8) × (i < 2 ^ (8 - level)) }
        ensures { result ≡ under K.CAPACITY K.DIGEST K.mapping self.now.nodes.items (level + 1) i }
    {
        if level == 0 {
            self.hash_node(kind, i)
        } else {
            let left = self.tree(kind, level - 1, 2 * i);
            let right = self.tree(kind, level - 1, 2 * i + 1);
            compress(kind, left.words(), right.words())
        }
    }
}
