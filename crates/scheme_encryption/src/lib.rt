// The calls of encryption and decryption (document 000, section 5.3) once the sheet is taken: the tests of the lent slices, and then the
// work. Scratch is given back zeroed, or as it was where the call is refused.
#![tactic(auto)]

ghost use Rattle.std.specs.Prelude.{◌≡◌, ◌&&◌, [], ◌∷◌};
ghost use Rattle.codec.specs.Refusal.{as_reply};
ghost use Rattle.scratch.specs.Vocabulary.{Usable, bytes_below, Computed};
ghost use Rattle.commitment.specs.Internal.{Loaded};
ghost use Rattle.commitment.specs.Parameters.{parameters};
ghost use Rattle.scheme.specs.Calls.{encrypt_tests, encrypt_writes, decrypt_tests, decrypt_writes};

use codec::{Refusal, Reply};
use scheme::hand_out;
use sheet_numbers::Numbers;

// r, e' and e'' are ternary, and m is a message.
fn encrypt_ranged(r: &[u8], e1: &[u8], e2: &[u8], m: &[u8], p: u64) -> bool
    ensures { result ≡ bytes_below 3 (r.now ∷ e1.now ∷ e2.now ∷ []) && bytes_below p (m.now ∷ []) }
{
    if !ring::is_ternary(r) {
        return false;
    }
    if !scratch::both_ternary(e1, e2) {
        return false;
    }
    bgv::is_message(m, p)
}

// The ciphertext u, v.
pub fn encrypt(
    k: Numbers,
    public: &[u8],
    r: &[u8],
    e1: &[u8],
    e2: &[u8],
    m: &[u8],
    ciphertext: &mut [u8],
    scratch: &mut [u8],
) -> Reply
    requires { Loaded k public.now }
    ensures { Computed (encrypt_tests k r.now e1.now e2.now m.now ciphertext.old scratch.old)
        (encrypt_writes (parameters k public.now) r.now e1.now e2.now m.now) (as_reply result)
        ciphertext.old ciphertext.new scratch.old scratch.new }
{
    let n = k.ring as usize;
    let q = k.modulus;
    if !scratch::sized(
        [
            r.len(),
            e1.len(),
            e2.len(),
            m.len(),
            ciphertext.len(),
            scratch.len(),
        ],
        [n, n, n, n, 16 * n, scratch::SCRATCH],
    ) {
        return Err(Refusal::WrongLength);
    }
    let p = sheet_numbers::plain(k);
    if !encrypt_ranged(r, e1, e2, m, p) {
        return Err(Refusal::ValueOutOfRange);
    }
    bgv::noisy(scratch, &public[0..8 * n], r, e1, p, n, q);
    hand_out(ciphertext, 0, scratch, n);
    bgv::noisy(scratch, &public[8 * n..16 * n], r, e2, p, n, q);
    bgv::add_message(scratch, m, n, q);
    hand_out(ciphertext, 8 * n, scratch, n);
    Ok(())
}

// The vote, from the secret key.
pub fn decrypt(
    k: Numbers,
    s: &[u8],
    ciphertext: &[u8],
    vote: &mut [u8],
    scratch: &mut [u8],
) -> Reply
    requires { Usable k }
    ensures { Computed (decrypt_tests k s.now ciphertext.now vote.old scratch.old)
        (decrypt_writes k s.now ciphertext.now) (as_reply result) vote.old vote.new scratch.old scratch.new }
{
    let n = k.ring as usize;
    let q = k.modulus;
    if !scratch::sized(
        [s.len(), ciphertext.len(), vote.len(), scratch.len(), 0, 0],
        [n, 16 * n, n, scratch::SCRATCH, 0, 0],
    ) {
        return Err(Refusal::WrongLength);
    }
    if !scratch::ternary_and_in_range(s, ciphertext, 2 * n, q) {
        return Err(Refusal::ValueOutOfRange);
    }
    let p = sheet_numbers::plain(k);
    bgv::noise(
        scratch,
        s,
        &ciphertext[0..8 * n],
        &ciphertext[8 * n..16 * n],
        n,
        q,
    );
    bgv::plain(scratch, vote, p, n, q);
    codec::wipe(scratch);
    Ok(())
}
