// The tests of what the producer of a round is lent (document 01, the producer's order after the lengths: 5, 14, 12, 9, 15), in the
// stretches of crates/round/specs/Producer.antt.
#![tactic(auto)]

mod keys;
mod masks;
mod noise;
mod permutations;
mod ranges;

ghost use Rattle.std.specs.Prelude.{◌≡◌, ◌++◌, ◌*◌, ◌≤◌, length};
ghost use Rattle.round.specs.Vocabulary.{zeros, first, noise_bound_of, mask_bound_of, scratch_length, Free, Loaded, ballot_length};
ghost use Rattle.round.specs.Vocabulary.{material_lent, mask_tests, permutation_tests, noise_tests, parameters, Usable};
ghost use Rattle.codec.specs.Refusal.{as_reply};
ghost use Rattle.round.specs.Producer.{MaterialSized, secret_tests};
ghost use Rattle.round_material.specs.Internal.{EachReady, MaterialTested};

use codec::{Refusal, Reply};
use round::LentMaterial;
use sheet_numbers::Numbers;

// 5, then 14.
fn test_secret(
    work: &mut [u8],
    k: Numbers,
    public: &[u8],
    lent: LentMaterial,
    count: usize,
    asked: bool,
) -> Reply
    requires { Loaded k public.now × (length work.old ≡ scratch_length) × (count ≤ 4096) × (length lent.secrets.now ≡ 14 * k.ring)
        × (length lent.s0.now ≡ 8 * k.ring) × (length lent.e0.now ≡ 8 * k.ring)
        × (length lent.ballots.now ≡ ballot_length k.ring * count) }
    ensures { let P = parameters k public.now in let x = material_lent lent.entry in
        (as_reply result ≡ first (secret_tests P count asked x.secrets x.s0 x.e0 x.vectors x.ballots)) × Free work.old work.new }
{
    if !asked {
        return Err(Refusal::ValueOutOfRange);
    }
    if !ranges::in_range(k, lent, count) {
        return Err(Refusal::ValueOutOfRange);
    }
    if !keys::matches(work, k, public, lent.secrets) {
        return Err(Refusal::SecretNotMatching);
    }
    Ok(())
}

// 12 by ballot, then 9 by repetition, then 15 by ballot. All three are worked out, and the first that refuses decides.
fn test_each(work: &mut [u8], k: Numbers, lent: LentMaterial, count: usize) -> Reply
    requires { let x = material_lent lent in Usable k × (length work.old ≡ scratch_length) × (count ≤ 4096)
        × EachReady k count x.secrets x.masks0 x.masks1 x.permutations x.ballots }
    ensures { let x = material_lent lent.entry in let masks = mask_tests k.ring (mask_bound_of k) count x.masks0 x.masks1 in
        let noise = noise_tests k.modulus k.ring (noise_bound_of k) count x.secrets x.ballots in
        (as_reply result ≡ first (masks ++ (permutation_tests k.ring k.repeats x.permutations ++ noise)))
        × (work.new ≡ zeros (length work.old)) }
{
    let masked = masks::test_masks(k, lent.masks0, lent.masks1, count);
    let permuting = permutations::test_permutations(work, k, lent.permutations);
    let quiet = noise::test_noise(work, k, lent.secrets, lent.ballots, count);
    codec::wipe(work);
    masked.and(permuting.and(quiet))
}

// The whole order. `asked` says whether what a call is given beside the material is in range. The salts are not read.
pub fn test_material(
    k: Numbers,
    public: &[u8],
    lent: LentMaterial,
    count: usize,
    asked: bool,
    scratch: &mut [u8],
) -> Reply
    requires { Loaded k public.now × (length scratch.old ≡ scratch_length) × (count ≤ 4096)
        × MaterialSized (parameters k public.now) count (material_lent lent) }
    ensures { let x = material_lent lent.entry in
        MaterialTested (parameters k public.now) count x asked (as_reply result) scratch.old scratch.new }
{
    let secret = test_secret(scratch, k, public, lent, count, asked);
    codec::wipe(scratch);
    secret?;
    test_each(scratch, k, lent, count)
}
