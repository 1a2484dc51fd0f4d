// 5: the secrets are ternary bytes, and every coefficient is below q.
ghost use Rattle.std.specs.Prelude.{◌≡◌, ◌*◌, ◌≤◌, length};
ghost use Rattle.round.specs.Vocabulary.{ballot_length, material_lent};
ghost use Rattle.round.specs.Producer.{material_ranged};

use round::LentMaterial;
use sheet_numbers::Numbers;

// Whether all that the producer is lent is in range; masks and permutations have tests of their own.
pub fn in_range(k: Numbers, lent: LentMaterial, count: usize) -> bool
    requires { (k.ring ≤ 2048) × (count ≤ 4096) × (length lent.s0.now ≡ 8 * k.ring) × (length lent.e0.now ≡ 8 * k.ring)
        × (length lent.ballots.now ≡ ballot_length k.ring * count) }
    ensures { let x = material_lent lent.entry in
        result ≡ material_ranged k.modulus k.ring count x.secrets x.s0 x.e0 x.vectors x.ballots }
{
    let q = k.modulus;
    if !ring::is_ternary(lent.secrets) {
        return false;
    }
    if !ring::in_range(lent.s0, q) {
        return false;
    }
    if !ring::in_range(lent.e0, q) {
        return false;
    }
    if !ring::in_range(lent.vectors, q) {
        return false;
    }
    round_tests::ranges::ballots_in_range(lent.ballots, count, k.ring as usize, q)
}
