// The promises of the product. There is no code here but their holder: the calls that keep to them are in the crates below.
#![tactic(auto)]

ghost use Rattle.promises.specs.Promises.{Promises};

use kinds::kind::Kind;

// For every kind, from its law alone.
pub fn promises<K: Kind>()
    ensures { Promises K.CAPACITY K.DIGEST K.mapping }
{}
