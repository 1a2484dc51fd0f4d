// The calls of key generation (document 000, section 5.3) and the key split (6.1) once the sheet is taken: the tests of the lent slices,
// and then the work.
// Scratch is given back zeroed, or as it was where the call is refused.
#![tactic(auto)]

ghost use Rattle.std.specs.Prelude.{◌≡◌, ◌&&◌, [], ◌∷◌, ◌*◌, length};
ghost use Rattle.codec.specs.Refusal.{as_reply};
ghost use Rattle.scratch.specs.Vocabulary.{bytes_below, coefficients_below, Computed};
ghost use Rattle.commitment.specs.Internal.{Loaded};
ghost use Rattle.commitment.specs.Parameters.{parameters};
ghost use Rattle.scheme.specs.Calls.{keygen_tests, keygen_writes, split_tests, split_writes};

use codec::{Refusal, Reply};
use scheme::hand_out;
use sheet_numbers::Numbers;

// The key b.
pub fn keygen(
    k: Numbers,
    public: &[u8],
    s: &[u8],
    e: &[u8],
    b: &mut [u8],
    scratch: &mut [u8],
) -> Reply
    requires { Loaded k public.now }
    ensures { Computed (keygen_tests k s.now e.now b.old scratch.old)
        (keygen_writes (parameters k public.now) s.now e.now) (as_reply result) b.old b.new scratch.old scratch.new }
{
    let n = k.ring as usize;
    if !scratch::sized(
        [s.len(), e.len(), b.len(), scratch.len(), 0, 0],
        [n, n, 8 * n, scratch::SCRATCH, 0, 0],
    ) {
        return Err(Refusal::WrongLength);
    }
    if !scratch::both_ternary(s, e) {
        return Err(Refusal::ValueOutOfRange);
    }
    let p = sheet_numbers::plain(k);
    bgv::noisy(scratch, &public[0..8 * n], s, e, p, n, k.modulus);
    hand_out(b, 0, scratch, n);
    Ok(())
}

// s and e are ternary, and s0 and e0 in range.
fn split_ranged(s: &[u8], e: &[u8], s0: &[u8], e0: &[u8], n: usize, q: u64) -> bool
    requires { (length s0.now ≡ 8 * n) × (length e0.now ≡ 8 * n) }
    ensures { result ≡ bytes_below 3 (s.now ∷ e.now ∷ []) && coefficients_below q n (s0.now ∷ e0.now ∷ []) }
{
    if scratch::both_ternary(s, e) {
        scratch::both_in_range(s0, e0, n, q)
    } else {
        false
    }
}

// The key split: s1, e1, b0, b1.
pub fn split(
    k: Numbers,
    public: &[u8],
    s: &[u8],
    e: &[u8],
    s0: &[u8],
    e0: &[u8],
    out: &mut [u8],
    scratch: &mut [u8],
) -> Reply
    requires { Loaded k public.now }
    ensures { Computed (split_tests k s.now e.now s0.now e0.now out.old scratch.old)
        (split_writes (parameters k public.now) s.now e.now s0.now e0.now) (as_reply result)
        out.old out.new scratch.old scratch.new }
{
    let n = k.ring as usize;
    let q = k.modulus;
    if !scratch::sized(
        [
            s.len(),
            e.len(),
            s0.len(),
            e0.len(),
            out.len(),
            scratch.len(),
        ],
        [n, n, 8 * n, 8 * n, 32 * n, scratch::SCRATCH],
    ) {
        return Err(Refusal::WrongLength);
    }
    if !split_ranged(s, e, s0, e0, n, q) {
        return Err(Refusal::ValueOutOfRange);
    }
    let p = sheet_numbers::plain(k);
    bgv::difference(scratch, 0, s, s0, n, q);
    hand_out(out, 0, scratch, n);
    bgv::difference(scratch, 0, e, e0, n, q);
    hand_out(out, 8 * n, scratch, n);
    bgv::noisy_lent(scratch, &public[0..8 * n], s0, e0, p, n, q);
    hand_out(out, 16 * n, scratch, n);
    bgv::noisy_difference(scratch, &public[0..8 * n], s, s0, e, e0, p, n, q);
    hand_out(out, 24 * n, scratch, n);
    Ok(())
}
