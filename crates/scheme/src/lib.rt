// The calls of decryption shares (document 000, section 6.1) and of the commitment once the sheet is taken: the tests of the lent slices,
// and then the work in scratch. `hand_out` ends the work of every call that writes a polynomial, here and in the crates of the other
// calls: `scheme_keys`, `scheme_encryption` and `scheme_products`.
#![tactic(auto)]

ghost use Rattle.std.specs.Prelude.{◌+◌, ◌*◌, ◌≤◌, length, ◌≡◌, [], ◌∷◌};
ghost use Rattle.codec.specs.Refusal.{as_reply};
ghost use Rattle.scratch.specs.Vocabulary.{part, Usable, coefficients_below, Computed};
ghost use Rattle.scheme.specs.Internal.{WrittenAt};
ghost use Rattle.scheme.specs.Calls.{share_tests, share_writes, reconstruct_tests, reconstruct_writes, commitment_tests};
ghost use Rattle.scheme.specs.Calls.{commitment_writes};
ghost use Rattle.commitment.specs.Internal.{Loaded};
ghost use Rattle.commitment.specs.Parameters.{parameters};

use codec::{Refusal, Reply};
use sheet_numbers::Numbers;

// What stands at the head of scratch is written out at a place, and scratch zeroed.
pub fn hand_out(out: &mut [u8], at: usize, scratch: &mut [u8], n: usize)
    requires { (at + 8 * n ≤ length out.old) × (8 * n ≤ length scratch.old) }
    ensures { WrittenAt at (part scratch.old 0 (8 * n)) out.old out.new scratch.old scratch.new }
{
    scratch::write_out(out, at, scratch, 0, n);
    codec::wipe(scratch);
}

// ---- Decryption shares and the vote of two once the sheet is taken: the tests of the lent slices, and then the work. Scratch is given
// back zeroed, or as it was where the call is refused.

// The decryption share t. A lent mask is bounded as it is lent.
pub fn share(
    k: Numbers,
    half: &[u8],
    u: &[u8],
    mask: &[u8],
    t: &mut [u8],
    scratch: &mut [u8],
) -> Reply
    requires { Usable k }
    ensures { Computed (share_tests k half.now u.now mask.now t.old scratch.old)
        (share_writes k half.now u.now mask.now) (as_reply result) t.old t.new scratch.old scratch.new }
{
    let n = k.ring as usize;
    if !scratch::sized(
        [half.len(), u.len(), mask.len(), t.len(), scratch.len(), 0],
        [8 * n, 8 * n, 8 * n, 8 * n, scratch::SCRATCH, 0],
    ) {
        return Err(Refusal::WrongLength);
    }
    if !scratch::both_in_range(half, u, n, k.modulus) {
        return Err(Refusal::ValueOutOfRange);
    }
    let bound = sheet_numbers::mask_bound(k);
    if !bgv::bounded(mask, bound, n) {
        return Err(Refusal::MaskTooLarge(0));
    }
    let p = sheet_numbers::plain(k);
    bgv::share(scratch, half, u, mask, p, n, k.modulus);
    hand_out(t, 0, scratch, n);
    Ok(())
}

// v, t0 and t1 are in range.
fn reconstruct_ranged(v: &[u8], t0: &[u8], t1: &[u8], n: usize, q: u64) -> bool
    requires { (length v.now ≡ 8 * n) × (length t0.now ≡ 8 * n) × (length t1.now ≡ 8 * n) }
    ensures { result ≡ coefficients_below q n (v.now ∷ t0.now ∷ t1.now ∷ []) }
{
    if ring::in_range(v, q) {
        scratch::both_in_range(t0, t1, n, q)
    } else {
        false
    }
}

// The vote, from two shares.
pub fn reconstruct(
    k: Numbers,
    v: &[u8],
    t0: &[u8],
    t1: &[u8],
    vote: &mut [u8],
    scratch: &mut [u8],
) -> Reply
    requires { Usable k }
    ensures { Computed (reconstruct_tests k v.now t0.now t1.now vote.old scratch.old)
        (reconstruct_writes k v.now t0.now t1.now) (as_reply result) vote.old vote.new scratch.old scratch.new }
{
    let n = k.ring as usize;
    if !scratch::sized(
        [v.len(), t0.len(), t1.len(), vote.len(), scratch.len(), 0],
        [8 * n, 8 * n, 8 * n, n, scratch::SCRATCH, 0],
    ) {
        return Err(Refusal::WrongLength);
    }
    if !reconstruct_ranged(v, t0, t1, n, k.modulus) {
        return Err(Refusal::ValueOutOfRange);
    }
    let p = sheet_numbers::plain(k);
    bgv::rebuilt(scratch, v, t0, t1, n, k.modulus);
    bgv::plain(scratch, vote, p, n, k.modulus);
    codec::wipe(scratch);
    Ok(())
}

// ---- The commitment (document 01, "Ring and scheme") once the sheet is taken: the tests of the lent slices, and then the work. Scratch is
// given back zeroed, or as it was where the call is refused.

// The pair that commits to m: the row stands at the head of scratch, the second half where m was put.
pub fn commitment(
    k: Numbers,
    public: &[u8],
    m: &[u8],
    r: &[u8],
    pair: &mut [u8],
    scratch: &mut [u8],
) -> Reply
    requires { Loaded k public.now }
    ensures { Computed (commitment_tests k m.now r.now pair.old scratch.old)
        (commitment_writes (parameters k public.now) m.now r.now) (as_reply result)
        pair.old pair.new scratch.old scratch.new }
{
    let n = k.ring as usize;
    if !scratch::sized(
        [m.len(), r.len(), pair.len(), scratch.len(), 0, 0],
        [8 * n, 3 * n, 16 * n, scratch::SCRATCH, 0, 0],
    ) {
        return Err(Refusal::WrongLength);
    }
    if !scratch::ternary_and_in_range(r, m, n, k.modulus) {
        return Err(Refusal::ValueOutOfRange);
    }
    commitment::pair(scratch, &public[16 * n..40 * n], m, r, n, k.modulus);
    scratch::write_out(pair, 0, scratch, 0, n);
    scratch::write_out(pair, 8 * n, scratch, commitment::MESSAGE, n);
    codec::wipe(scratch);
    Ok(())
}
