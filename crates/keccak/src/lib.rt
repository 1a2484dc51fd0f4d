// The permutation Keccak-f[1600] of FIPS 202, section 3: five rows of five lanes, by value.
#![tactic(auto)]

pub mod chi;
pub mod rounds;
pub mod steps;

ghost use Rattle.std.specs.Prelude.{◌≡◌};
ghost use Rattle.keccak.specs.Keccak.{keccak};
ghost use Rattle.keccak.specs.Internal.{flipped, six};

// The constants of the 24 rounds (FIPS 202, 3.2.5).
const CONSTANTS: [u64; 24] = [
    0x0000000000000001,
    0x0000000000008082,
    0x800000000000808A,
    0x8000000080008000,
    0x000000000000808B,
    0x0000000080000001,
    0x8000000080008081,
    0x8000000000008009,
    0x000000000000008A,
    0x0000000000000088,
    0x0000000080008009,
    0x000000008000000A,
    0x000000008000808B,
    0x800000000000008B,
    0x8000000000008089,
    0x8000000000008003,
    0x8000000000008002,
    0x8000000000000080,
    0x000000000000800A,
    0x800000008000000A,
    0x8000000080008081,
    0x8000000000008080,
    0x0000000080000001,
    0x8000000080008008,
];

// The six lanes complemented: chi then takes 8 complements in a round and not 25.
#[tactic(auto, unfolding(crate::specs::Internal::flipped, crate::specs::Steps::complement))]
fn complemented(s: [[u64; 5]; 5]) -> [[u64; 5]; 5]
    ensures { result ≡ flipped six s }
{
    [
        [s[0][0], !s[0][1], !s[0][2], s[0][3], s[0][4]],
        [s[1][0], s[1][1], s[1][2], !s[1][3], s[1][4]],
        [s[2][0], s[2][1], !s[2][2], s[2][3], s[2][4]],
        [s[3][0], s[3][1], !s[3][2], s[3][3], s[3][4]],
        [!s[4][0], s[4][1], s[4][2], s[4][3], s[4][4]],
    ]
}

// The permutation Keccak-f[1600], four rounds at a time: with one, the state is put back in its place in memory after each, a sixth slower.
pub fn permute(s: [[u64; 5]; 5]) -> [[u64; 5]; 5]
    ensures { result ≡ keccak s }
{
    // a local: with the constant itself in the loop, the whole of SHA3-256 came out a twentieth slower
    let table = CONSTANTS;
    let mut t = complemented(s);
    for k in 0..6 {
        let n = 4 * k;
        let u = crate::rounds::four_rounds(t, table[n], table[n + 1], table[n + 2], table[n + 3]);
        t = u;
    }
    complemented(t)
}
