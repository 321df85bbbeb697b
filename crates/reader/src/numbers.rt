ghost use Rattle.std.specs.Prelude.{◌≡◌, ◌+◌, ◌≤◌, slice_index};
ghost use Rattle.reader.specs.Numbers.{little, eight, bytes_from};

use std::array;

// Numbers from bytes, the least significant first; a byte past the end counts as 0.

pub fn byte_at(bytes: &[u8], at: usize) -> u8
    ensures { result ≡ slice_index bytes.now at }
{
    bytes.get(at).copied().unwrap_or(0)
}

// The bytes from an offset on.
fn bytes_at<const N: usize>(bytes: &[u8], at: usize) -> [u8; N]
    requires { at + N ≤ 128 }
    ensures { result ≡ bytes_from bytes.now at N }
{
    array::from_fn(|i| byte_at(bytes, at + i))
}

pub(crate) fn u16_at(bytes: &[u8], at: usize) -> u16
    requires { at ≤ 64 }
    ensures { result ≡ little bytes.now at 2 }
{
    u16::from_le_bytes(bytes_at(bytes, at))
}

pub(crate) fn u64_at(bytes: &[u8], at: usize) -> u64
    requires { at ≤ 64 }
    ensures { result ≡ little bytes.now at 8 }
{
    u64::from_le_bytes(bytes_at(bytes, at))
}

// Eight words, after the station's byte.
pub(crate) fn eight_words(bytes: &[u8]) -> [u64; 8]
    ensures { result ≡ eight bytes.now 1 }
{
    array::from_fn(|i| u64_at(bytes, 1 + 8 * i))
}
