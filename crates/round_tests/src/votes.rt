// The tests of one ballot by the opened half of the secret: 12, then 13.
ghost use Rattle.std.specs.Prelude.{◌≡◌, ◌*◌, ◌≤◌, length};
ghost use Rattle.round.specs.Vocabulary.{same, list, Below, poly, plain, mask_bound_of};
ghost use Rattle.round.specs.Vocabulary.{Usable, scratch_length, Polynomial, Tried};
ghost use Rattle.round.specs.Vocabulary.{Free};
ghost use Rattle.codec.specs.Refusal.{as_reply};
ghost use Rattle.bgv.specs.Scheme as scheme;
ghost use Rattle.bgv.specs.Scheme.{rebuilt};
ghost use Rattle.round_tests.specs.Internal.{vote_tests};

use codec::{Refusal, Reply};
use sheet_numbers::Numbers;

// Whether each byte of a claim is the vote that a polynomial in scratch stands for.
fn is_vote(work: &[u8], k: Numbers, claim: &[u8]) -> bool
    requires { Usable k × (8 * k.ring ≤ length work.now) × (length claim.now ≡ k.ring)
        × Below k.modulus k.ring (poly work.now) }
    ensures { result ≡ same claim.now (list k.ring (scheme.plaintext k.modulus (plain k) (poly work.now))) }
{
    let n = k.ring as usize;
    let p = sheet_numbers::plain(k);
    for i in 0..n {
        let x = codec::read64(work, 8 * i);
        if u64::from(claim[i]) != modular::residue(x, p, k.modulus) {
            return false;
        }
    }
    true
}

// Whether a claim is v - t0 - t1 centred, by p.
fn is_claim(work: &mut [u8], k: Numbers, claim: &[u8], v: &[u8], t0: &[u8], t1: &[u8]) -> bool
    requires { Usable k × Polynomial k.ring k.modulus v.now × Polynomial k.ring k.modulus t0.now
        × Polynomial k.ring k.modulus t1.now × (length work.old ≡ scratch_length) × (length claim.now ≡ k.ring) }
    ensures { (result ≡ same claim.now (list k.ring (scheme.plaintext k.modulus (plain k) (rebuilt k.modulus (poly v.now)
        (poly t0.now) (poly t1.now))))) × Free work.old work.new }
{
    bgv::rebuilt(work, v, t0, t1, k.ring as usize, k.modulus);
    is_vote(work, k, claim)
}

// One ballot: the mask worked out from the opened side's share t is at most the bound, and the claim is the vote of both shares.
pub fn test_ballot(
    work: &mut [u8],
    k: Numbers,
    s: &[u8],
    u: &[u8],
    v: &[u8],
    claim: &[u8],
    t0: &[u8],
    t1: &[u8],
    t: &[u8],
    place: u32,
) -> Reply
    requires { Usable k × Polynomial k.ring k.modulus s.now × Polynomial k.ring k.modulus u.now
        × Polynomial k.ring k.modulus v.now × Polynomial k.ring k.modulus t0.now
        × Polynomial k.ring k.modulus t1.now × Polynomial k.ring k.modulus t.now × (length work.old ≡ scratch_length)
        × (length claim.now ≡ k.ring) }
    ensures { Tried (vote_tests k.modulus k.ring (plain k) (mask_bound_of k) place (poly s.now) (poly u.now)
        (poly t.now) claim.now (poly v.now) (poly t0.now) (poly t1.now)) (as_reply result)
        work.old work.new }
{
    let p = sheet_numbers::plain(k);
    let bound = sheet_numbers::mask_bound(k);
    if !bgv::mask_within(work, s, u, t, bound, p, k.ring as usize, k.modulus) {
        return Err(Refusal::MaskTooLarge(place));
    }
    if !is_claim(work, k, claim, v, t0, t1) {
        return Err(Refusal::ClaimDiffers(place));
    }
    Ok(())
}
