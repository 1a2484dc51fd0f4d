// What two openings and three answers to one first message yield (document 01, the extractor's paragraph): a collision of the
// digest, a short vector on which the commitment row is zero, or the key. specs/Extractor.antt of `round` says what is found.
#![tactic(auto)]

ghost use Rattle.std.specs.Prelude.{◌≡◌, true, cond, ◌*◌, ◌≤◌, ◌+◌, ◌%◌, ◌<◌, ◌^◌, length, get_or, ◌++◌, eqb};
ghost use Rattle.round.specs.Vocabulary.{zeros, all_below, scratch_length, Loaded, vector, pairs_of, parameters, part, put};
ghost use Rattle.round.specs.Vocabulary.{same, modulo, encode, Free};
ghost use Rattle.round_collision.specs.Internal.{ThreeAnswers, MaskedVectors};
ghost use Rattle.round_search.specs.Internal.{Finds, unknowns_of, from, excess, solved_by, written_by};
ghost use Rattle.round_search.specs.Finding.{number_of_finding};
ghost use Rattle.stern.specs.Shortness.{polynomial};
ghost use Rattle.round.specs.Extractor.{ternary_bytes};

use round_collision::{Digest, collision};
use sheet_numbers::Numbers;

// What two openings and three answers give away: two strings with one digest of the answers; a short vector on which the commitment row
// is zero, from the pairs of s or of e; or the key.
#[derive(Clone, Copy, PartialEq, Eq)]
pub enum Finding {
    Collision(Digest),
    VectorForS,
    VectorForE,
    Key,
}

impl Finding {
    // Document 01's number of its kind.
    pub fn number(self) -> u8
        ensures { result ≡ number_of_finding self }
    {
        match self {
            Finding::Collision(digest) => digest.number(),
            Finding::VectorForS => 4,
            Finding::VectorForE => 5,
            Finding::Key => 6,
        }
    }
}

// ---- The unknowns that answers 2 and 3 give, and what they say of two openings: the vector for s, else the vector for e, else the key.

// Number i of the unknowns: that of extended + R less that of R.
fn unknown(u: &[u8], r: &[u8], i: usize, n: usize, q: u64) -> u64
    requires { (n ≤ 2048) × (q < 2 ^ 56) × (i < 14 * n) × MaskedVectors q n u.now r.now }
    ensures { (result ≡ get_or (unknowns_of q n u.now r.now) i 0) × (result < q) }
{
    modular::subtract(vector::component(u, i), vector::component(r, i), q)
}

// ---- the vector for s or for e

// Number i of the openings' summed r less the summed r of the unknowns.
fn excess(r0: &[u8], r1: &[u8], u: &[u8], r: &[u8], first: usize, i: usize, n: usize, q: u64) -> u64
    requires { (n ≤ 2048) × (3 ≤ q) × (q < 2 ^ 56) × (length r0.now ≡ 3 * n) × (length r1.now ≡ 3 * n)
        × MaskedVectors q n u.now r.now × (first + 6 * n ≤ 14 * n) × (i < 3 * n) }
    ensures { result ≡ excess q n r0.now r1.now (unknowns_of q n u.now r.now) first i % q }
{
    let x = ring::from_ternary(r0[i], q);
    let y = ring::from_ternary(r1[i], q);
    let opened = modular::add(x, y, q);
    let v = unknown(u, r, first + i, n, q);
    let w = unknown(u, r, first + 3 * n + i, n, q);
    let found = modular::add(v, w, q);
    modular::subtract(opened, found, q)
}

// All 3n numbers.
fn write_excess(
    out: &mut [u8],
    r0: &[u8],
    r1: &[u8],
    u: &[u8],
    r: &[u8],
    first: usize,
    n: usize,
    q: u64,
)
    requires { (n ≤ 2048) × (3 ≤ q) × (q < 2 ^ 56) × (length r0.now ≡ 3 * n) × (length r1.now ≡ 3 * n)
        × MaskedVectors q n u.now r.now × (first + 6 * n ≤ 14 * n) × (length out.old ≡ 24 * n) }
    ensures { out.new ≡ encode (3 * n) (modulo q (excess q n r0.now r1.now (unknowns_of q n u.now r.now) first)) }
{
    for i in 0..3 * n {
        let v = excess(r0, r1, u, r, first, i, n, q);
        codec::write64(out, 8 * i, v);
    }
}

// Writes them, for the three r of two openings at a place, and answers whether they are all zero.
fn vanishes(
    work: &mut [u8],
    out: &mut [u8],
    opening0: &[u8],
    opening1: &[u8],
    u: &[u8],
    r: &[u8],
    at: usize,
    first: usize,
    n: usize,
    q: u64,
) -> bool
    requires { (n ≤ 2048) × (3 ≤ q) × (q < 2 ^ 56) × (at + 3 * n ≤ length opening0.now) × (at + 3 * n ≤ length opening1.now)
        × MaskedVectors q n u.now r.now × (first + 6 * n ≤ 14 * n) × (length out.old ≡ 24 * n)
        × (length work.old ≡ scratch_length) × (at ≤ 19 * n) }
    ensures { let z = unknowns_of q n u.now r.now in (result ≡ same out.new (zeros (24 * n)))
        × ((out.new ≡ encode (3 * n) (modulo q (excess q n (part opening0.now at (3 * n)) (part opening1.now at (3 * n)) z first)))
        × Free work.old work.new) }
{
    let end = at + 3 * n;
    write_excess(
        out,
        &opening0[at..end],
        &opening1[at..end],
        u,
        r,
        first,
        n,
        q,
    );
    vector::clear(work, 0, 24 * n);
    codec::equal(out, &work[0..24 * n])
}

// ---- the key

// The ternary byte of 0, 1 or -1 modulo q.
fn to_ternary(v: u64) -> u8
    ensures { result ≡ cond (eqb v 1) 1 (cond (eqb v 0) 0 2) }
{
    match v {
        1 => 1,
        0 => 0,
        _ => 2,
    }
}

// The first two polynomials of the unknowns, s and e, as ternary bytes.
fn write_secrets(out: &mut [u8], u: &[u8], r: &[u8], n: usize, q: u64)
    requires { (n ≤ 2048) × (q < 2 ^ 56) × MaskedVectors q n u.now r.now × (length out.old ≡ 24 * n) }
    ensures { out.new ≡ put out.old 0 (ternary_bytes q (2 * n) (from (unknowns_of q n u.now r.now) 0)) }
{
    for i in 0..2 * n {
        out[i] = to_ternary(unknown(u, r, i, n, q));
    }
}

// s and e, and then zeros.
fn write_key(out: &mut [u8], u: &[u8], r: &[u8], n: usize, q: u64)
    requires { (n ≤ 2048) × (q < 2 ^ 56) × MaskedVectors q n u.now r.now × (length out.old ≡ 24 * n) }
    ensures { out.new ≡ ternary_bytes q n (polynomial n (unknowns_of q n u.now r.now) 0)
        ++ (ternary_bytes q n (polynomial n (unknowns_of q n u.now r.now) 1) ++ zeros (22 * n)) }
{
    write_secrets(out, u, r, n, q);
    vector::clear(out, 2 * n, 22 * n);
}

// The vector for s, else the vector for e, else the key, in the order of the unknowns: s, e, and the three r of s0, s1, e0, e1.
fn solve(
    work: &mut [u8],
    out: &mut [u8],
    opening0: &[u8],
    opening1: &[u8],
    u: &[u8],
    r: &[u8],
    n: usize,
    q: u64,
) -> Finding
    requires { (n ≤ 2048) × (3 ≤ q) × (q < 2 ^ 56) × (length work.old ≡ scratch_length) × (length out.old ≡ 24 * n)
        × (length opening0.now ≡ 22 * n) × (length opening1.now ≡ 22 * n) × MaskedVectors q n u.now r.now }
    ensures { let z = unknowns_of q n u.now r.now in (number_of_finding result ≡ solved_by q n opening0.now opening1.now z)
        × ((out.new ≡ written_by q n opening0.now opening1.now z) × Free work.old work.new) }
{
    if !vanishes(work, out, opening0, opening1, u, r, 16 * n, 2 * n, n, q) {
        return Finding::VectorForS;
    }
    if !vanishes(work, out, opening0, opening1, u, r, 19 * n, 8 * n, n, q) {
        return Finding::VectorForE;
    }
    write_key(out, u, r, n, q);
    Finding::Key
}

// The lowest digest whose two strings differ, with zeros in the output; else the nonzero vector for s, for e; else the key. It is called
// once every test is passed, so nothing is refused any more and the output is used on the way. Scratch is zeroed.
pub fn find(
    work: &mut [u8],
    k: Numbers,
    public: &[u8],
    head: &[u8],
    opening0: &[u8],
    opening1: &[u8],
    answer1: &[u8],
    answer2: &[u8],
    answer3: &[u8],
    out: &mut [u8],
) -> Finding
    requires { Loaded k public.now × (length work.old ≡ scratch_length) × (length out.old ≡ 24 * k.ring)
        × (80 * k.ring ≤ length head.now) × (length opening0.now ≡ 22 * k.ring) × (length opening1.now ≡ 22 * k.ring)
        × (all_below k.modulus (vector (pairs_of k.ring head.now)) ≡ true)
        × ThreeAnswers k.modulus k.ring answer1.now answer2.now answer3.now }
    ensures { Finds (parameters k public.now) head.now opening0.now opening1.now answer1.now answer2.now
        answer3.now (number_of_finding result) out.new × (work.new ≡ zeros (length work.old)) }
{
    let n = k.ring as usize;
    let q = k.modulus;
    let found = collision(
        work,
        out,
        &public[16 * n..40 * n],
        &head[16 * n..80 * n],
        answer1,
        answer2,
        answer3,
        n,
        q,
    );
    if let Some(digest) = found {
        return Finding::Collision(digest);
    }
    let found = solve(
        work,
        out,
        opening0,
        opening1,
        &answer2[168 * n..504 * n],
        &answer3[168 * n..504 * n],
        n,
        q,
    );
    codec::wipe(work);
    found
}
