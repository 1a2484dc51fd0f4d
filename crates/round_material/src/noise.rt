// 15: the noise of each ballot, the size of centred v - s u, is at most a bound, the lowest ballot first.
ghost use Rattle.std.specs.Prelude.{◌≡◌, true, ◌+◌, ◌*◌, ◌≤◌, ◌<◌, ◌^◌, length};
ghost use Rattle.round.specs.Vocabulary.{first, Below, poly, slot, ternary, noise_bound_of, scratch_length, Polynomial, Free, within};
ghost use Rattle.round.specs.Vocabulary.{ballot_length, s_in, noise_tests, Usable};
ghost use Rattle.codec.specs.Refusal.{as_reply};
ghost use Rattle.bgv.specs.Scheme.{centred, noise_in};
ghost use Rattle.round.specs.Layout.{ballots_below};

use codec::{Refusal, Reply};
use sheet_numbers::Numbers;

// Whether the centred coefficients at the head of scratch are at most a bound in size.
fn head_within(work: &[u8], bound: u64, n: usize, q: u64) -> bool
    requires { (8 * n ≤ length work.now) × Below q n (poly work.now) × (q < 2 ^ 56) }
    ensures { result ≡ within bound n (centred q (poly work.now)) }
{
    for i in 0..n {
        let x = codec::read64(work, 8 * i);
        if bound < modular::size(x, q) {
            return false;
        }
    }
    true
}

// Whether the noise of a ciphertext u, v is at most a bound.
fn is_quiet(work: &mut [u8], s: &[u8], u: &[u8], v: &[u8], bound: u64, n: usize, q: u64) -> bool
    requires { Polynomial n q u.now × Polynomial n q v.now × (length work.old ≡ scratch_length) × (length s.now ≡ n) }
    ensures { (result ≡ within bound n (centred q (noise_in q n (ternary q s.now) (poly u.now) (poly v.now))))
        × Free work.old work.new }
{
    bgv::noise(work, s, u, v, n, q);
    head_within(work, bound, n, q)
}

// The same of the ballot that stands at a place, with the secrets, which begin with s.
fn is_quiet_at(
    work: &mut [u8],
    secrets: &[u8],
    ballots: &[u8],
    at: usize,
    bound: u64,
    n: usize,
    q: u64,
) -> bool
    requires { (4 ≤ n) × (n ≤ 2048) × (3 ≤ q) × (q < 2 ^ 56) × (length work.old ≡ scratch_length) × (length secrets.now ≡ 14 * n)
        × (at + 4 + 16 * n ≤ length ballots.now) × Below q (2 * n) (slot ballots.now (at + 4)) }
    ensures { let u = slot ballots.now (at + 4) in let v = slot ballots.now (at + 4 + 8 * n) in
        (result ≡ within bound n (centred q (noise_in q n (ternary q (s_in n secrets.now)) u v)))
        × Free work.old work.new }
{
    let from = at + 4;
    let middle = from + 8 * n;
    let end = middle + 8 * n;
    is_quiet(
        work,
        &secrets[0..n],
        &ballots[from..middle],
        &ballots[middle..end],
        bound,
        n,
        q,
    )
}

// The noise of every ballot, in order.
pub fn test_noise(
    work: &mut [u8],
    k: Numbers,
    secrets: &[u8],
    ballots: &[u8],
    count: usize,
) -> Reply
    requires { Usable k × (count ≤ 4096) × (length work.old ≡ scratch_length) × (length secrets.now ≡ 14 * k.ring)
        × (length ballots.now ≡ ballot_length k.ring * count)
        × (ballots_below k.modulus k.ring count ballots.now ≡ true) }
    ensures { (as_reply result ≡ first (noise_tests k.modulus k.ring (noise_bound_of k) count secrets.now ballots.now))
        × Free work.old work.new }
{
    let n = k.ring as usize;
    let q = k.modulus;
    let bound = sheet_numbers::noise_bound(k);
    for j in 0..count {
        let at = (4 + 16 * n) * j;
        if !is_quiet_at(work, secrets, ballots, at, bound, n, q) {
            return Err(Refusal::NoiseTooLarge(j as u32));
        }
    }
    Ok(())
}
