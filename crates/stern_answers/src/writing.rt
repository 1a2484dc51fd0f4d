// What the producer writes for a repetition, from the unknowns x in ternary bytes, the mask vector r, the permutation p and three salts:
// the digests, and the answer to a challenge.
ghost use Rattle.std.specs.Prelude.{◌≡◌, ◌+◌, ◌*◌, ◌≤◌, ◌<◌, ◌^◌, length};
ghost use Rattle.scratch.specs.Vocabulary.{put, scratch_length};
ghost use Rattle.codec.specs.Bytes.{zeros};
ghost use Rattle.commitment.specs.Commitment.{keys_of};
ghost use Rattle.commitment.specs.Internal.{PublicKeys};
ghost use Rattle.vector.specs.Vector.{vector};
ghost use Rattle.stern.specs.Argument.{answer1, answer2, answer3};
ghost use Rattle.stern.specs.Shortness.{drawn_of, answer_length, honest_digests, honest_answer};
ghost use Rattle.stern.specs.Internal.{RepetitionMaterial};
ghost use Rattle.stern.specs.Shortness.{answer1_bytes, answer2_bytes, answer3_bytes};

use stern::digests::{equations_digest, gathered_digest, masked_digest};

// The three digests, 96 bytes at a place of an output. Scratch is given back zeroed.
pub fn write_digests(
    out: &mut [u8],
    at: usize,
    work: &mut [u8],
    k: &[u8],
    x: &[u8],
    r: &[u8],
    p: &[u8],
    salts: &[u8],
    n: usize,
    q: u64,
)
    requires { PublicKeys n q k.now × (length work.old ≡ scratch_length) × (at + 96 ≤ length out.old)
        × RepetitionMaterial q n x.now r.now p.now salts.now }
    ensures { let drawn = drawn_of p.now r.now salts.now in
        (out.new ≡ put out.old at (honest_digests q n (keys_of n k.now) x.now drawn))
        × (work.new ≡ zeros (length work.old)) }
{
    let second = at + 32;
    let third = at + 64;
    let one = equations_digest(work, k, k, false, r, p, &salts[0..32], n, q);
    codec::copy(out, at, &one);
    let two = gathered_digest(2, work, p, r, &salts[32..64], n);
    codec::copy(out, second, &two);
    let three = masked_digest(work, p, x, r, &salts[64..96], n, q);
    codec::copy(out, third, &three);
    codec::wipe(work);
}

// Answer 1: P(extended), P(R), salts 2 and 3.
pub fn write_answer1(out: &mut [u8], x: &[u8], r: &[u8], p: &[u8], salts: &[u8], n: usize, q: u64)
    requires { (n ≤ 2048) × (length out.old ≡ 378 * n + 64) × RepetitionMaterial q n x.now r.now p.now salts.now }
    ensures { let drawn = drawn_of p.now r.now salts.now in out.new ≡ answer1_bytes (answer1 (14 * n) x.now drawn) }
{
    let (minus, zeros) = vector::missing(x);
    vector::gather_extended(out, 0, p, x, minus, zeros, 42 * n);
    vector::gather(out, 42 * n, p, r, 42 * n);
    codec::copy(out, 378 * n, &salts[32..96]);
}

// Answer 2: P, extended + R, salts 1 and 3.
pub fn write_answer2(out: &mut [u8], x: &[u8], r: &[u8], p: &[u8], salts: &[u8], n: usize, q: u64)
    requires { (n ≤ 2048) × (3 ≤ q) × (q < 2 ^ 56) × (length out.old ≡ 504 * n + 64)
        × RepetitionMaterial q n x.now r.now p.now salts.now }
    ensures { let drawn = drawn_of p.now r.now salts.now in
        out.new ≡ answer2_bytes (answer2 q (14 * n) x.now drawn) }
{
    let (minus, zeros) = vector::missing(x);
    codec::copy(out, 0, p);
    vector::mask(out, 168 * n, x, minus, zeros, r, 42 * n, q);
    codec::copy(out, 504 * n, &salts[0..32]);
    codec::copy(out, 504 * n + 32, &salts[64..96]);
}

// Answer 3: P, R, salts 1 and 2.
pub fn write_answer3(out: &mut [u8], r: &[u8], p: &[u8], salts: &[u8], n: usize)
    requires { (n ≤ 2048) × (length out.old ≡ 504 * n + 64) × (length r.now ≡ 336 * n) × (length p.now ≡ 168 * n)
        × (length salts.now ≡ 96) }
    ensures { out.new ≡ answer3_bytes (answer3 (drawn_of p.now r.now salts.now)) }
{
    codec::copy(out, 0, p);
    codec::copy(out, 168 * n, r);
    codec::copy(out, 504 * n, &salts[0..64]);
}

// The answer to a challenge, over the whole of an output; a challenge out of range counts as 3.
pub fn write_answer(
    out: &mut [u8],
    challenge: u8,
    x: &[u8],
    r: &[u8],
    p: &[u8],
    salts: &[u8],
    n: usize,
    q: u64,
)
    requires { (n ≤ 2048) × (3 ≤ q) × (q < 2 ^ 56) × (length out.old ≡ answer_length n challenge)
        × RepetitionMaterial q n x.now r.now p.now salts.now }
    ensures { out.new ≡ honest_answer q n x.now (drawn_of p.now r.now salts.now) challenge }
{
    if challenge == 1 {
        write_answer1(out, x, r, p, salts, n, q);
    } else if challenge == 2 {
        write_answer2(out, x, r, p, salts, n, q);
    } else {
        write_answer3(out, r, p, salts, n);
    }
}
