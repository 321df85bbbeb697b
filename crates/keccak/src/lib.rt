// The permutation Keccak-f[1600] of FIPS 202 on 25 lanes of 64 bits: lane (x, y) stands at x + 5 y.
// The steps are written out lane by lane, so that the compiler keeps lanes in registers.
#![tactic(auto)]

ghost use Rattle.std.specs.Prelude.{◌≡◌, ◌<◌, slice_index};
ghost use Rattle.keccak.specs.Keccak.{rotated, rotations, effects, theta, rho, pi, chi, iota, round, keccak_f};

// How far rho rotates each lane.
const ROTATIONS: [u32; 25] = [
    0, 1, 62, 28, 27, 36, 44, 6, 55, 20, 3, 10, 43, 25, 39, 41, 45, 15, 21, 8, 18, 2, 61, 56, 14,
];

// The word that iota takes in at each round.
const ROUND_WORDS: [u64; 24] = [
    0x0000000000000001,
    0x0000000000008082,
    0x800000000000808a,
    0x8000000080008000,
    0x000000000000808b,
    0x0000000080000001,
    0x8000000080008081,
    0x8000000000008009,
    0x000000000000008a,
    0x0000000000000088,
    0x0000000080008009,
    0x000000008000000a,
    0x000000008000808b,
    0x800000000000008b,
    0x8000000000008089,
    0x8000000000008003,
    0x8000000000008002,
    0x8000000000000080,
    0x000000000000800a,
    0x800000008000000a,
    0x8000000080008081,
    0x8000000000008080,
    0x0000000080000001,
    0x8000000080008008,
];

// What theta xors into the lanes of each column.
fn effects(a: [u64; 25]) -> [u64; 5]
    ensures { result ≡ effects a }
{
    let c0 = a[0] ^ a[5] ^ a[10] ^ a[15] ^ a[20];
    let c1 = a[1] ^ a[6] ^ a[11] ^ a[16] ^ a[21];
    let c2 = a[2] ^ a[7] ^ a[12] ^ a[17] ^ a[22];
    let c3 = a[3] ^ a[8] ^ a[13] ^ a[18] ^ a[23];
    let c4 = a[4] ^ a[9] ^ a[14] ^ a[19] ^ a[24];
    [
        c4 ^ c1.rotate_left(1),
        c0 ^ c2.rotate_left(1),
        c1 ^ c3.rotate_left(1),
        c2 ^ c4.rotate_left(1),
        c3 ^ c0.rotate_left(1),
    ]
}

fn theta(a: [u64; 25]) -> [u64; 25]
    ensures { result ≡ theta a }
{
    let d = effects(a);
    [
        a[0] ^ d[0],
        a[1] ^ d[1],
        a[2] ^ d[2],
        a[3] ^ d[3],
        a[4] ^ d[4],
        a[5] ^ d[0],
        a[6] ^ d[1],
        a[7] ^ d[2],
        a[8] ^ d[3],
        a[9] ^ d[4],
        a[10] ^ d[0],
        a[11] ^ d[1],
        a[12] ^ d[2],
        a[13] ^ d[3],
        a[14] ^ d[4],
        a[15] ^ d[0],
        a[16] ^ d[1],
        a[17] ^ d[2],
        a[18] ^ d[3],
        a[19] ^ d[4],
        a[20] ^ d[0],
        a[21] ^ d[1],
        a[22] ^ d[2],
        a[23] ^ d[3],
        a[24] ^ d[4],
    ]
}

// A word rotated as far as rho rotates lane i.
fn rho(word: u64, i: usize) -> u64
    requires { i < 25 }
    ensures { result ≡ rotated word (slice_index rotations i) }
{
    word.rotate_left(ROTATIONS[i])
}

// Rho and pi in one pass over the lanes.
fn rho_pi(a: [u64; 25]) -> [u64; 25]
    ensures { result ≡ pi (rho a) }
{
    [
        rho(a[0], 0),
        rho(a[6], 6),
        rho(a[12], 12),
        rho(a[18], 18),
        rho(a[24], 24),
        rho(a[3], 3),
        rho(a[9], 9),
        rho(a[10], 10),
        rho(a[16], 16),
        rho(a[22], 22),
        rho(a[1], 1),
        rho(a[7], 7),
        rho(a[13], 13),
        rho(a[19], 19),
        rho(a[20], 20),
        rho(a[4], 4),
        rho(a[5], 5),
        rho(a[11], 11),
        rho(a[17], 17),
        rho(a[23], 23),
        rho(a[2], 2),
        rho(a[8], 8),
        rho(a[14], 14),
        rho(a[15], 15),
        rho(a[21], 21),
    ]
}

fn chi(a: [u64; 25]) -> [u64; 25]
    ensures { result ≡ chi a }
{
    [
        a[0] ^ (!a[1] & a[2]),
        a[1] ^ (!a[2] & a[3]),
        a[2] ^ (!a[3] & a[4]),
        a[3] ^ (!a[4] & a[0]),
        a[4] ^ (!a[0] & a[1]),
        a[5] ^ (!a[6] & a[7]),
        a[6] ^ (!a[7] & a[8]),
        a[7] ^ (!a[8] & a[9]),
        a[8] ^ (!a[9] & a[5]),
        a[9] ^ (!a[5] & a[6]),
        a[10] ^ (!a[11] & a[12]),
        a[11] ^ (!a[12] & a[13]),
        a[12] ^ (!a[13] & a[14]),
        a[13] ^ (!a[14] & a[10]),
        a[14] ^ (!a[10] & a[11]),
        a[15] ^ (!a[16] & a[17]),
        a[16] ^ (!a[17] & a[18]),
        a[17] ^ (!a[18] & a[19]),
        a[18] ^ (!a[19] & a[15]),
        a[19] ^ (!a[15] & a[16]),
        a[20] ^ (!a[21] & a[22]),
        a[21] ^ (!a[22] & a[23]),
        a[22] ^ (!a[23] & a[24]),
        a[23] ^ (!a[24] & a[20]),
        a[24] ^ (!a[20] & a[21]),
    ]
}

fn iota(mut a: [u64; 25], word: u64) -> [u64; 25]
    ensures { result ≡ iota a word }
{
    a[0] ^= word;
    a
}

// In line: a call would pass the lanes through memory.
#[inline(always)]
fn round(a: [u64; 25], word: u64) -> [u64; 25]
    ensures { result ≡ round a word }
{
    iota(chi(rho_pi(theta(a))), word)
}

// Keccak-f[1600], two rounds a turn, so that the lanes change places half as often. In line, so that they are not copied for a call.
#[inline(always)]
pub fn keccak_f(mut lanes: [u64; 25]) -> [u64; 25]
    ensures { result ≡ keccak_f lanes }
{
    for i in 0..12 {
        let half = round(lanes, ROUND_WORDS[2 * i]);
        let next = round(half, ROUND_WORDS[2 * i + 1]);
        lanes = next;
    }
    lanes
}
