ghost use Rattle.std.specs.Prelude.{◌≡◌, ◌*◌, ◌%◌, length};
ghost use Rattle.field.specs.Field.{p};
ghost use Rattle.rpo_kinds.specs.Constants.{little_endian, constant_at, constants_named};
ghost use Rattle.rpo.specs.Matrix.{made_by};

use crate::constants::RoundConstants;
use field::element::P;
use shake::shake256;
use std::array;

// The number that nine bytes write, least significant first, modulo p. 2^64 is 4294967295 modulo p.
fn constant(bytes: &[u8]) -> u64
    requires { length bytes.now ≡ 9 }
    ensures { result ≡ little_endian bytes.now % p }
{
    let low = [
        bytes[0], bytes[1], bytes[2], bytes[3], bytes[4], bytes[5], bytes[6], bytes[7],
    ];
    let rest = u64::from_le_bytes(low) % P;
    let top = bytes[8] as u64 * 4294967295;
    if rest < P - top {
        rest + top
    } else {
        rest - (P - top)
    }
}

// A constant for each nine bytes.
fn read<const N: usize>(bytes: &[u8]) -> [u64; N]
    requires { length bytes.now ≡ 9 * N }
    ensures { result ≡ made_by (constant_at bytes.now) N }
{
    array::from_fn(|i| constant(&bytes[9 * i..9 * i + 9]))
}

impl<const N: usize> RoundConstants<N> {
    // The constants that a text names; `stream` is room for nine bytes each.
    pub(crate) fn named(text: &[u8], stream: &mut [u8]) -> RoundConstants<N>
        requires { length stream.old ≡ 9 * N }
        ensures { result.words ≡ constants_named text.now N }
    {
        shake256(text, stream);
        let words = read(stream);
        RoundConstants { words }
    }
}
