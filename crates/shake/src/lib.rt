// SHAKE256 of FIPS 202: a text of any length into a buffer of any length.
#![tactic(auto)]

ghost use Rattle.std.specs.Prelude.{◌≡◌, ◌+◌, ◌*◌, ◌/◌, ◌<◌, ◌≤◌, length};
ghost use Rattle.shake.specs.Shake.{padded_at, padded_lane, mixed, absorbed, state_byte, output, shake256_bytes};

use keccak::keccak_f;
use std::array;

// Byte i of the padded text.
fn padded_byte(text: &[u8], i: usize) -> u8
    ensures { result ≡ padded_at text.now i }
{
    let start = if i < text.len() {
        text[i]
    } else if i == text.len() {
        0x1f
    } else {
        0
    };
    let end = if i == 136 * (text.len() / 136) + 135 {
        0x80
    } else {
        0
    };
    start ^ end
}

// The eight bytes of the padded text from byte i on, as a lane.
fn padded_lane(text: &[u8], i: usize) -> u64
    requires { i ≤ length text.now + 128 }
    ensures { result ≡ padded_lane text.now i }
{
    u64::from_le_bytes(array::from_fn(|k| padded_byte(text, i + k)))
}

// Xors the block of the padded text at byte i into the first 17 lanes.
fn mixed(text: &[u8], i: usize, mut lanes: [u64; 25]) -> [u64; 25]
    requires { i ≤ length text.now }
    ensures { result ≡ mixed text.now i lanes 17 }
{
    for (j, lane) in lanes[..17].iter_mut().enumerate() {
        *lane ^= padded_lane(text, i + 8 * j);
    }
    lanes
}

// The state after all blocks of the padded text.
fn absorbed(text: &[u8]) -> [u64; 25]
    ensures { result ≡ absorbed text.now (length text.now / 136 + 1) }
{
    let mut lanes = [0; 25];
    for k in 0..text.len() / 136 + 1 {
        let next = keccak_f(mixed(text, 136 * k, lanes));
        lanes = next;
    }
    lanes
}

// Byte i of a state.
fn state_byte(lanes: &[u64; 25], i: usize) -> u8
    requires { i < 200 }
    ensures { result ≡ state_byte lanes.now i }
{
    lanes[i / 8].to_le_bytes()[i % 8]
}

// Fills the buffer from a state, which is permuted after each 136 bytes.
fn squeeze(mut lanes: [u64; 25], out: &mut [u8])
    ensures { out.new ≡ output lanes (length out.old) }
{
    for (i, byte) in out.iter_mut().enumerate() {
        *byte = state_byte(&lanes, i % 136);
        if i % 136 == 135 {
            let next = keccak_f(lanes);
            lanes = next;
        }
    }
}

// Fills the buffer with SHAKE256 of the text.
#[tactic(auto, unfolding(crate::specs::Shake::shake256_bytes))]
pub fn shake256(text: &[u8], out: &mut [u8])
    ensures { out.new ≡ shake256_bytes text.now (length out.old) }
{
    squeeze(absorbed(text), out);
}
