// What is lent to a call, one test at a time.
ghost use Rattle.std.specs.Prelude.{◌≡◌, ◌&&◌, ◌∷◌, [], ◌*◌, ◌≤◌, length};
ghost use Rattle.codec.specs.Refusal.{as_reply};
ghost use Rattle.scratch.specs.Vocabulary.{same, first, all_below, scratch_length};
ghost use Rattle.vector.specs.Vector.{vector};
ghost use Rattle.stern.specs.Shortness.{answer_length, in_range};
ghost use Rattle.test_stern.specs.Calls.{ring_fits, range_tests, lengths, wanted, Sifted};

use codec::{Refusal, Reply};

// Whether the ring size and the modulus are such as the code takes.
#[tactic(auto, unfolding(crate::specs::Calls::ring_fits))]
pub fn ring_fits(n: usize, q: u64) -> bool
    ensures { result ≡ ring_fits n q }
{
    (4..=2048).contains(&n) && (3..72057594037927936).contains(&q)
}

// Whether what is lent for a repetition has its lengths, with an output of so many bytes.
pub fn material_sized(
    x: &[u8],
    r: &[u8],
    p: &[u8],
    salts: &[u8],
    out: &[u8],
    scratch: &[u8],
    room: usize,
    n: usize,
) -> bool
    requires { n ≤ 2048 }
    ensures { result ≡ same (lengths x.now r.now p.now salts.now out.now
        scratch.now) (wanted n room) }
{
    scratch::sized(
        [
            x.len(),
            r.len(),
            p.len(),
            salts.len(),
            out.len(),
            scratch.len(),
        ],
        [14 * n, 336 * n, 168 * n, 96, room, scratch::SCRATCH],
    )
}

// Whether it is in range, and P a permutation, whose indices are marked in scratch.
pub fn material_ranged(x: &[u8], r: &[u8], p: &[u8], scratch: &mut [u8], n: usize, q: u64) -> Reply
    requires { (n ≤ 2048) × (length p.now ≡ 168 * n) × (length scratch.old ≡ scratch_length) }
    ensures { Sifted (first (range_tests q n x.now r.now p.now)) (as_reply result) scratch.old scratch.new }
{
    if !ring::is_ternary(x) {
        return Err(Refusal::ValueOutOfRange);
    }
    if !ring::in_range(r, q) {
        return Err(Refusal::ValueOutOfRange);
    }
    if !vector::tests::is_permutation(p, scratch, 0, 42 * n) {
        return Err(Refusal::NoPermutation(0));
    }
    Ok(())
}

// Whether the slices of a test have their lengths.
pub fn test_sized(
    keys: &[u8],
    pairs: &[u8],
    digests: &[u8],
    answer: &[u8],
    scratch: &[u8],
    long: usize,
    n: usize,
) -> bool
    requires { n ≤ 2048 }
    ensures { result ≡ same (length keys.now ∷ length pairs.now ∷ length digests.now ∷ length
        answer.now ∷ length scratch.now ∷ []) (24 * n ∷ 64 * n ∷ 96 ∷ long ∷ scratch_length ∷ []) }
{
    scratch::sized(
        [
            keys.len(),
            pairs.len(),
            digests.len(),
            answer.len(),
            scratch.len(),
            0,
        ],
        [24 * n, 64 * n, 96, long, scratch::SCRATCH, 0],
    )
}

// Whether the keys, the committed pairs and the numbers of an answer are in range.
pub fn test_ranged(
    keys: &[u8],
    pairs: &[u8],
    challenge: u8,
    answer: &[u8],
    n: usize,
    q: u64,
) -> bool
    requires { (n ≤ 2048) × (length answer.now ≡ answer_length n challenge) }
    ensures { result ≡ all_below q (vector keys.now) && (all_below q (vector pairs.now) && in_range q n challenge
        answer.now) }
{
    ring::in_range(keys, q)
        && ring::in_range(pairs, q)
        && stern_answers::layout::answer_ranged(challenge, answer, n, q)
}
