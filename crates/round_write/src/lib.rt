// What the producer of a round writes once its material passed all tests (document 01, "One round", third paragraph):
// crates/round/specs/Producer.antt.
#![tactic(auto)]

ghost use Rattle.round.specs.Vocabulary.{Loaded, material_lent, first_in, first_out, second_in, second_out, parameters};
ghost use Rattle.round.specs.Vocabulary.{part, put, coefficient_bytes, poly, ternary, scratch_length, Polynomial, Free, other, s_in};
ghost use Rattle.round.specs.Vocabulary.{Usable, drawn_of, answer_length, RepetitionMaterial, answers_length};
ghost use Rattle.round.specs.Internal.{first_now, second_now, FirstProduced, SecondProduced};
ghost use Rattle.round_lengths.specs.Calls.{count_of};
ghost use Rattle.round_write.specs.Internal.{FirstReady, SecondReady};
ghost use Rattle.std.specs.Prelude.{◌≡◌, ◌++◌, ◌+◌, ◌*◌, ◌≤◌, ◌<◌, ◌^◌, length};
ghost use Rattle.round.specs.Producer.{e_in, opening_bytes, answers_bytes};
ghost use Rattle.stern.specs.Shortness.{honest_answer};
ghost use Rattle.round_head.specs.Internal.{Drawings};

use round::LentMaterial;
use sheet_numbers::Numbers;

// ---- The opening of a side: s_i, e_i, the three r of s_i, then of e_i.

// The halves that were lent.
fn lent_halves(opening: &mut [u8], s0: &[u8], e0: &[u8], n: usize, q: u64)
    requires { Polynomial n q s0.now × Polynomial n q e0.now × (16 * n ≤ length opening.old) }
    ensures { let halves = coefficient_bytes q n (poly s0.now) ++ coefficient_bytes q n (poly e0.now) in
        opening.new ≡ put opening.old 0 halves }
{
    codec::copy(opening, 0, s0);
    codec::copy(opening, 8 * n, e0);
}

// The other halves, s - s0 and e - e0.
fn other_halves(
    opening: &mut [u8],
    work: &mut [u8],
    secrets: &[u8],
    s0: &[u8],
    e0: &[u8],
    n: usize,
    q: u64,
)
    requires { Polynomial n q s0.now × Polynomial n q e0.now × (length secrets.now ≡ 14 * n) × (length work.old ≡ scratch_length)
        × (16 * n ≤ length opening.old) }
    ensures { let s1 = other q (ternary q (s_in n secrets.now)) (poly s0.now) in
        let e1 = other q (ternary q (e_in n secrets.now)) (poly e0.now) in
        (opening.new ≡ put opening.old 0 (coefficient_bytes q n s1 ++ coefficient_bytes q n e1))
        × Free work.old work.new }
{
    bgv::difference(work, 0, &secrets[0..n], s0, n, q);
    scheme::hand_out(opening, 0, work, n);
    bgv::difference(work, 0, &secrets[n..2 * n], e0, n, q);
    scheme::hand_out(opening, 8 * n, work, n);
}

// The three r of a half of s and those of a half of e, from places of the secrets.
fn hiding(opening: &mut [u8], secrets: &[u8], s: usize, e: usize, n: usize)
    requires { (n ≤ 2048) × (s + 3 * n ≤ length secrets.now) × (e + 3 * n ≤ length secrets.now) × (22 * n ≤ length opening.old) }
    ensures { let hides = part secrets.now s (3 * n) ++ part secrets.now e (3 * n) in
        opening.new ≡ put opening.old (16 * n) hides }
{
    codec::copy(opening, 16 * n, &secrets[s..s + 3 * n]);
    codec::copy(opening, 19 * n, &secrets[e..e + 3 * n]);
}

// The opening of side 0 or 1.
fn write_opening(
    opening: &mut [u8],
    work: &mut [u8],
    k: Numbers,
    secrets: &[u8],
    s0: &[u8],
    e0: &[u8],
    side: u64,
)
    requires { Polynomial k.ring k.modulus s0.now × Polynomial k.ring k.modulus e0.now
        × (length secrets.now ≡ 14 * k.ring)
        × (length work.old ≡ scratch_length) × (side < 2) × (length opening.old ≡ 22 * k.ring) }
    ensures { (opening.new ≡ opening_bytes k.modulus k.ring secrets.now s0.now e0.now side)
        × Free work.old work.new }
{
    let n = k.ring as usize;
    let q = k.modulus;
    if side == 0 {
        lent_halves(opening, s0, e0, n, q);
        hiding(opening, secrets, 2 * n, 8 * n, n);
    } else {
        other_halves(opening, work, secrets, s0, e0, n, q);
        hiding(opening, secrets, 5 * n, 11 * n, n);
    }
}

// ---- The answers to challenges, each repetition's in its own stretch of the lent buffer, end to end.

// One repetition, at places of what was drawn: its stretch of the buffer is lent on.
fn answer_at(
    answers: &mut [u8],
    at: usize,
    size: usize,
    challenge: u8,
    lent: LentMaterial,
    vector: usize,
    permutation: usize,
    salt: usize,
    n: usize,
    q: u64,
)
    requires { let x = material_lent lent in (n ≤ 2048) × (3 ≤ q) × (q < 2 ^ 56) × (size ≡ answer_length n challenge)
        × (at + size ≤ length answers.old)
        × (vector + 336 * n ≤ length x.vectors) × (permutation + 168 * n ≤ length x.permutations)
        × (salt + 96 ≤ length x.salts)
        × RepetitionMaterial q n x.secrets (part x.vectors vector (336 * n)) (part x.permutations permutation (168 * n))
        (part x.salts salt 96) }
    ensures { let x = material_lent lent.entry in
        let drawn = drawn_of (part x.permutations permutation (168 * n)) (part x.vectors vector (336 * n)) (part x.salts salt 96) in
        answers.new ≡ put answers.old at (honest_answer q n x.secrets drawn challenge) }
{
    stern_answers::writing::write_answer(
        &mut answers[at..at + size],
        challenge,
        lent.secrets,
        &lent.vectors[vector..vector + 336 * n],
        &lent.permutations[permutation..permutation + 168 * n],
        &lent.salts[salt..salt + 96],
        n,
        q,
    );
}

// Every repetition, in order.
fn write_answers(answers: &mut [u8], k: Numbers, challenges: &[u8], lent: LentMaterial)
    requires { let x = material_lent lent in Usable k × Drawings k.modulus k.ring k.repeats x.secrets x.vectors x.permutations x.salts
        × (length challenges.now ≡ k.repeats) × (length answers.old ≡ answers_length k.ring challenges.now) }
    ensures { let x = material_lent lent.entry in
        let drawn = answers_bytes k.modulus k.ring k.repeats x.secrets x.vectors x.permutations x.salts in
        answers.new ≡ drawn challenges.now }
{
    let n = k.ring as usize;
    let q = k.modulus;
    let mut at = 0;
    for (i, challenge) in challenges.iter().enumerate() {
        let size = stern_answers::layout::answer_length(n, *challenge);
        answer_at(
            answers,
            at,
            size,
            *challenge,
            lent,
            336 * n * i,
            168 * n * i,
            96 * i,
            n,
            q,
        );
        at += size;
    }
}

// The first message and the claims. Scratch is given back zeroed.
pub fn write_first(
    k: Numbers,
    public: &[u8],
    lent: LentMaterial,
    head: &mut [u8],
    shares0: &mut [u8],
    shares1: &mut [u8],
    claims: &mut [u8],
    scratch: &mut [u8],
)
    requires { Loaded k public.now × FirstReady k (material_lent lent) (first_now head shares0 shares1 claims scratch) }
    ensures { let x = material_lent lent.entry in
        let before = first_in head shares0 shares1 claims scratch in let after = first_out head shares0 shares1 claims scratch in
        FirstProduced (parameters k public.now) (count_of k.ring x.ballots) x before after }
{
    round_head::write_head(k, public, lent, head, scratch);
    let count = round_lengths::count_of(lent.ballots, k.ring as usize);
    round_shares::write_ballots(shares0, shares1, claims, scratch, k, lent, count);
}

// The opening of a side, and the answers to challenges. Scratch is given back zeroed.
pub fn write_second(
    k: Numbers,
    lent: LentMaterial,
    side: u64,
    challenges: &[u8],
    opening: &mut [u8],
    answers: &mut [u8],
    scratch: &mut [u8],
)
    requires { let x = material_lent lent in let room = second_now opening answers scratch in
        SecondReady k x.secrets x.s0 x.e0 x.vectors x.permutations x.salts side challenges.now room }
    ensures { let x = material_lent lent.entry in
        let before = second_in opening answers scratch in let after = second_out opening answers scratch in
        SecondProduced k x.secrets x.s0 x.e0 x.vectors x.permutations x.salts side challenges.now before after }
{
    write_opening(opening, scratch, k, lent.secrets, lent.s0, lent.e0, side);
    codec::wipe(scratch);
    write_answers(answers, k, challenges, lent);
}
