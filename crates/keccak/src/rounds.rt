// Rounds of FIPS 202, section 3.3, on a state with six lanes complemented. What theta, rho, pi and chi make is made a row at a time,
// straight from the state before them, so that few lanes are in use at once.
ghost use Rattle.std.specs.Prelude.{◌≡◌, ◌<◌, [], get_or};
ghost use Rattle.keccak.specs.Steps.{rho, pi};
ghost use Rattle.keccak.specs.Internal.{affected, round_flipped};

use crate::chi::{chi_row0, chi_row1, chi_row2, chi_row3, chi_row4};
use crate::steps::{OFFSETS, iota_step, rho_row, theta_effect};

// Row Y before chi, where d is what theta adds: its lane x is that of row x and column (x + 3 Y) mod 5 (3.2.3), with its column's d, and
// rotated by its offset.
fn moved_row<const Y: usize>(s: [[u64; 5]; 5], d: [u64; 5]) -> [u64; 5]
    requires { Y < 5 }
    ensures { result ≡ get_or (pi (rho (affected s d))) Y [] }
{
    let b = [
        s[0][3 * Y % 5] ^ d[3 * Y % 5],
        s[1][(1 + 3 * Y) % 5] ^ d[(1 + 3 * Y) % 5],
        s[2][(2 + 3 * Y) % 5] ^ d[(2 + 3 * Y) % 5],
        s[3][(3 + 3 * Y) % 5] ^ d[(3 + 3 * Y) % 5],
        s[4][(4 + 3 * Y) % 5] ^ d[(4 + 3 * Y) % 5],
    ];
    rho_row(b, OFFSETS[Y])
}

// A round with the constant c. It is called four times in a row, and a call would pass its state through memory.
#[inline(always)]
#[tactic(auto, unfolding(crate::specs::Internal::round_flipped, crate::specs::Internal::chi_flipped, crate::specs::Internal::affected, crate::specs::Steps::theta))]
fn round(s: [[u64; 5]; 5], c: u64) -> [[u64; 5]; 5]
    ensures { result ≡ round_flipped s c }
{
    let d = theta_effect(s);
    let rows = [
        chi_row0(moved_row::<0>(s, d)),
        chi_row1(moved_row::<1>(s, d)),
        chi_row2(moved_row::<2>(s, d)),
        chi_row3(moved_row::<3>(s, d)),
        chi_row4(moved_row::<4>(s, d)),
    ];
    iota_step(rows, c)
}

// Four rounds, with their constants i, j, k and l.
pub fn four_rounds(s: [[u64; 5]; 5], i: u64, j: u64, k: u64, l: u64) -> [[u64; 5]; 5]
    ensures { result ≡ round_flipped (round_flipped (round_flipped (round_flipped s i) j) k) l }
{
    round(round(round(round(s, i), j), k), l)
}
