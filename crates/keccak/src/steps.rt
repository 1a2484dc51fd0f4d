// Steps of FIPS 202, section 3.2, that the rounds are made of, on five rows of five lanes, by value; chi has a module of its own.
ghost use Rattle.std.specs.Prelude.{◌≡◌, ◌<◌};
ghost use Rattle.keccak.specs.Steps.{rotate, xor_row, parity, effect, rho_row, iota};
ghost use Rattle.keccak.specs.Internal.{Offsets};

// The rotation offsets of FIPS 202, table 2, modulo 64, in the order of the lanes after pi: row y, column x.
pub const OFFSETS: [[u32; 5]; 5] = [
    [0, 44, 43, 21, 14],
    [28, 20, 3, 45, 61],
    [1, 6, 25, 8, 18],
    [27, 36, 10, 15, 56],
    [62, 55, 39, 41, 2],
];

// A lane rotated left by n places, from shifts and not by `u64::rotate_left`: the form that is asked for here (docs/ASSURANCE.md).
#[tactic(auto, using(crate::proofs::Rotation::rotated))]
fn rotate_left(x: u64, n: u32) -> u64
    requires { n < 64 }
    ensures { result ≡ rotate x n }
{
    (x << n) | ((x >> 1) >> (63 - n))
}

// The exclusive or of two rows, lane by lane.
#[tactic(auto, unfolding(crate::specs::Steps::xor_row))]
fn xor_row(r: [u64; 5], d: [u64; 5]) -> [u64; 5]
    ensures { result ≡ xor_row r d }
{
    [
        r[0] ^ d[0],
        r[1] ^ d[1],
        r[2] ^ d[2],
        r[3] ^ d[3],
        r[4] ^ d[4],
    ]
}

// C of theta: the exclusive or of each column.
#[tactic(auto, unfolding(crate::specs::Steps::parity))]
fn column_parities(s: [[u64; 5]; 5]) -> [u64; 5]
    ensures { result ≡ parity s }
{
    xor_row(xor_row(xor_row(xor_row(s[0], s[1]), s[2]), s[3]), s[4])
}

// D of theta (3.2.1): what it adds to each lane of a column.
pub fn theta_effect(s: [[u64; 5]; 5]) -> [u64; 5]
    ensures { result ≡ effect (parity s) }
{
    let c = column_parities(s);
    [
        c[4] ^ rotate_left(c[1], 1),
        c[0] ^ rotate_left(c[2], 1),
        c[1] ^ rotate_left(c[3], 1),
        c[2] ^ rotate_left(c[4], 1),
        c[3] ^ rotate_left(c[0], 1),
    ]
}

// Rho (3.2.2) on five lanes: each by its own offset.
pub fn rho_row(r: [u64; 5], n: [u32; 5]) -> [u64; 5]
    requires { Offsets n }
    ensures { result ≡ rho_row r n }
{
    [
        rotate_left(r[0], n[0]),
        rotate_left(r[1], n[1]),
        rotate_left(r[2], n[2]),
        rotate_left(r[3], n[3]),
        rotate_left(r[4], n[4]),
    ]
}

// Iota (3.2.5): the round constant goes into the first lane.
#[tactic(auto, unfolding(crate::specs::Steps::iota))]
pub fn iota_step(s: [[u64; 5]; 5], c: u64) -> [[u64; 5]; 5]
    ensures { result ≡ iota s c }
{
    let mut t = s;
    t[0][0] ^= c;
    t
}
