ghost use Rattle.sponge.specs.Digests.{PairsAreRecords};
ghost use Rattle.sponge.specs.Streams.{StreamsToDigests};

use kinds::kind::Kind;

// Fed element by element, a record of any kind comes to its digest by blocks, the filling included.
pub fn streams_stand<K: Kind>()
    ensures { StreamsToDigests K.CAPACITY K.DIGEST K.mapping }
{}

// The two-to-one hash of two digests of any kind is the digest of the record that they make together.
pub fn pairs_are_records<K: Kind>()
    ensures { PairsAreRecords K.CAPACITY K.DIGEST K.mapping }
{}
