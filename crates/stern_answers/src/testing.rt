// The tests of an answer in a check: 9, then 10, then 11 (document 01, "One round" and "Refused because of the input").
ghost use Rattle.std.specs.Prelude.{◌≡◌, true, not, ◌&&◌, [], ◌∷◌, ◌+◌, ◌*◌, ◌≤◌, ◌<◌, ◌^◌, length};
ghost use Rattle.scratch.specs.Vocabulary.{same, first, all_below, scratch_length};
ghost use Rattle.codec.specs.Reply.{test};
ghost use Rattle.codec.specs.Refusal.{as_reply};
ghost use Rattle.scratch.specs.Internal.{Judged, Tried};
ghost use Rattle.commitment.specs.Commitment.{keys_of};
ghost use Rattle.commitment.specs.Internal.{PublicKeys};
ghost use Rattle.vector.specs.Vector.{vector};
ghost use Rattle.stern.specs.Shortness.{answer1_of, answer2_of, tests1, answer_length, answer_tests, in_range};
ghost use Rattle.stern_answers.specs.Internal.{balanced_tests, permuted_tests};

use codec::{Refusal, Reply};
use stern::digests::{equations_digest, gathered_digest, tagged};

// Answer 1: there are L of each, and digests 2 and 3 are those of P(R) and of P(extended) + P(R).
fn test_balanced(
    work: &mut [u8],
    two: &[u8],
    three: &[u8],
    w: &[u8],
    t: &[u8],
    salt2: &[u8],
    salt3: &[u8],
    place: u32,
    n: usize,
    q: u64,
) -> Reply
    requires { (n ≤ 2048) × (3 ≤ q) × (q < 2 ^ 56) × (length work.old ≡ scratch_length) × (length w.now ≡ 42 * n)
        × (length t.now ≡ 336 * n) × (length salt2.now ≡ 32) × (length salt3.now ≡ 32) × (all_below q (vector t.now) ≡ true) }
    ensures { Tried (balanced_tests q n two.now three.now w.now t.now salt2.now salt3.now place)
        (as_reply result) work.old work.new }
{
    if !vector::tests::is_balanced(w, 14 * n) {
        return Err(Refusal::NotBalanced(place));
    }
    let second = tagged(2, salt2, t);
    vector::sum(work, 0, w, t, 42 * n, q);
    let third = tagged(3, salt3, &work[0..336 * n]);
    test_digests(two, &second, three, &third, place)
}

// Whether two digests are two others.
fn both_equal(a: &[u8], b: &[u8], c: &[u8], d: &[u8]) -> bool
    ensures { result ≡ (same a.now b.now && same c.now d.now) }
{
    codec::equal(a, b) && codec::equal(c, d)
}

// 11, unless two digests are two others.
fn test_digests(a: &[u8], b: &[u8], c: &[u8], d: &[u8], place: u32) -> Reply
    ensures { as_reply result ≡ first (test 11 place (not (same a.now b.now && same c.now d.now)) ∷ []) }
{
    if both_equal(a, b, c, d) {
        Ok(())
    } else {
        Err(Refusal::DigestDiffers(place))
    }
}

// Answers 2 and 3: P is a permutation, and two digests are those of the equations and of P applied to the vector x, which is extended
// + R or R.
fn test_permuted(
    work: &mut [u8],
    k: &[u8],
    c: &[u8],
    less: bool,
    one: &[u8],
    lead: u8,
    other: &[u8],
    p: &[u8],
    x: &[u8],
    salt1: &[u8],
    salt: &[u8],
    place: u32,
    n: usize,
    q: u64,
) -> Reply
    requires { PublicKeys n q k.now × (length work.old ≡ scratch_length) × (length p.now ≡ 168 * n) × (length x.now ≡ 336 * n)
        × (length salt1.now ≡ 32) × (length salt.now ≡ 32) × (all_below q (vector x.now) ≡ true) × (length c.now ≡ 64 * n)
        × (all_below q (vector c.now) ≡ true) }
    ensures { Tried (permuted_tests q n (keys_of n k.now) c.now less one.now lead other.now p.now x.now
        salt1.now salt.now place) (as_reply result) work.old work.new }
{
    if !vector::tests::is_permutation(p, work, 0, 42 * n) {
        return Err(Refusal::NoPermutation(place));
    }
    let first = equations_digest(work, k, c, less, x, p, salt1, n, q);
    let second = gathered_digest(lead, work, p, x, salt, n);
    test_digests(one, &first, other, &second, place)
}

// Answer 1 from its bytes; the keys and the committed pairs do not enter.
fn test_first(work: &mut [u8], d: &[u8], answer: &[u8], place: u32, n: usize, q: u64) -> Reply
    requires { (n ≤ 2048) × (3 ≤ q) × (q < 2 ^ 56) × (length work.old ≡ scratch_length) × (length d.now ≡ 96)
        × (length answer.now ≡ 378 * n + 64) × (all_below q (vector (answer1_of n answer.now).t) ≡ true) }
    ensures { Judged (tests1 q n (keys_of n []) [] d.now place (answer1_of n answer.now)) (as_reply result)
        work.old work.new }
{
    let reply = test_balanced(
        work,
        &d[32..64],
        &d[64..96],
        &answer[0..42 * n],
        &answer[42 * n..378 * n],
        &answer[378 * n..378 * n + 32],
        &answer[378 * n + 32..378 * n + 64],
        place,
        n,
        q,
    );
    codec::wipe(work);
    reply
}

// Answers 2 and 3 from their bytes, which are cut alike, and scratch zeroed.
fn test_bytes(
    work: &mut [u8],
    k: &[u8],
    c: &[u8],
    less: bool,
    one: &[u8],
    lead: u8,
    other: &[u8],
    answer: &[u8],
    place: u32,
    n: usize,
    q: u64,
) -> Reply
    requires { PublicKeys n q k.now × (length work.old ≡ scratch_length) × (length answer.now ≡ 504 * n + 64)
        × (length c.now ≡ 64 * n) × (all_below q (vector c.now) ≡ true) × (all_below q (vector (answer2_of n answer.now).u) ≡ true) }
    ensures { let x = answer2_of n answer.now in
        Judged (permuted_tests q n (keys_of n k.now) c.now less one.now lead other.now x.p x.u x.salt1 x.salt3
        place) (as_reply result) work.old work.new }
{
    let reply = test_permuted(
        work,
        k,
        c,
        less,
        one,
        lead,
        other,
        &answer[0..168 * n],
        &answer[168 * n..504 * n],
        &answer[504 * n..504 * n + 32],
        &answer[504 * n + 32..504 * n + 64],
        place,
        n,
        q,
    );
    codec::wipe(work);
    reply
}

// An answer to a challenge of 1, 2, 3 from its bytes, and scratch zeroed.
pub fn test_answer(
    work: &mut [u8],
    k: &[u8],
    c: &[u8],
    d: &[u8],
    challenge: u8,
    answer: &[u8],
    place: u32,
    n: usize,
    q: u64,
) -> Reply
    requires { PublicKeys n q k.now × (length work.old ≡ scratch_length) × (length d.now ≡ 96) × (length c.now ≡ 64 * n)
        × (all_below q (vector c.now) ≡ true) × (length answer.now ≡ answer_length n challenge)
        × (in_range q n challenge answer.now ≡ true) }
    ensures { Judged (answer_tests q n (keys_of n k.now) c.now d.now place challenge answer.now)
        (as_reply result) work.old work.new }
{
    if challenge == 1 {
        return test_first(work, d, answer, place, n, q);
    }
    if challenge == 2 {
        return test_bytes(
            work,
            k,
            c,
            true,
            &d[0..32],
            3,
            &d[64..96],
            answer,
            place,
            n,
            q,
        );
    }
    test_bytes(
        work,
        k,
        c,
        false,
        &d[0..32],
        2,
        &d[32..64],
        answer,
        place,
        n,
        q,
    )
}
