// The head of the first message of a round (document 01, "Layouts"): b0 and b1, the committed pairs of s0, s1, e0, e1, and the digests
// of every repetition, as crates/round/specs/Producer.antt says.
#![tactic(auto)]

ghost use Rattle.std.specs.Prelude.{◌≡◌, ◌+◌, ◌*◌, ◌≤◌, length, ◌++◌};
ghost use Rattle.round.specs.Vocabulary.{part, put, scratch_length, Free, keys_of, PublicKeys, Loaded, drawn_of, RepetitionMaterial};
ghost use Rattle.round.specs.Vocabulary.{key_bytes, head_length, poly, ternary, Polynomial, other, three_of, zeros, plain};
ghost use Rattle.round.specs.Vocabulary.{parameters, material_lent};
ghost use Rattle.stern.specs.Shortness.{honest_digests};
ghost use Rattle.round.specs.Producer.{digests_bytes, committed_pair, pairs_bytes, key_bytes_of, head_bytes};
ghost use Rattle.round_head.specs.Internal.{Drawings};
ghost use Rattle.commitment.specs.Commitment.{committed};
ghost use Rattle.commitment.specs.Internal.{PairInSlots};
ghost use Rattle.commitment.specs.Loaded.{a_of};

use round::LentMaterial;
use sheet_numbers::Numbers;

// ---- The digests of every repetition, end to end.

// One repetition, at places of what was drawn.
fn digests_at(
    out: &mut [u8],
    at: usize,
    work: &mut [u8],
    k: &[u8],
    lent: LentMaterial,
    vector: usize,
    permutation: usize,
    salt: usize,
    n: usize,
    q: u64,
)
    requires { let x = material_lent lent in PublicKeys n q k.now × (length work.old ≡ scratch_length) × (at + 96 ≤ length out.old)
        × (vector + 336 * n ≤ length x.vectors)
        × (permutation + 168 * n ≤ length x.permutations) × (salt + 96 ≤ length x.salts)
        × RepetitionMaterial q n x.secrets (part x.vectors vector (336 * n)) (part x.permutations permutation (168 * n))
        (part x.salts salt 96) }
    ensures { let x = material_lent lent.entry in
        let drawn = drawn_of (part x.permutations permutation (168 * n)) (part x.vectors vector (336 * n)) (part x.salts salt 96) in
        (out.new ≡ put out.old at (honest_digests q n (keys_of n k.now) x.secrets drawn)) × Free work.old work.new }
{
    stern_answers::writing::write_digests(
        out,
        at,
        work,
        k,
        lent.secrets,
        &lent.vectors[vector..vector + 336 * n],
        &lent.permutations[permutation..permutation + 168 * n],
        &lent.salts[salt..salt + 96],
        n,
        q,
    );
}

// Every repetition, behind the keys and the pairs in the head of the first message.
fn write_digests(k: Numbers, public: &[u8], lent: LentMaterial, head: &mut [u8], work: &mut [u8])
    requires { let x = material_lent lent in Loaded k public.now × (length work.old ≡ scratch_length)
        × (length head.old ≡ head_length k.ring k.repeats)
        × Drawings k.modulus k.ring k.repeats x.secrets x.vectors x.permutations x.salts }
    ensures { let x = material_lent lent.entry in
        let digests = digests_bytes k.modulus k.ring k.repeats x.secrets x.vectors x.permutations x.salts in
        (head.new ≡ put head.old (80 * k.ring) (digests (keys_of k.ring (key_bytes k public.now))))
        × Free work.old work.new }
{
    let n = k.ring as usize;
    let q = k.modulus;
    let repeats = k.repeats as usize;
    let keys = &public[16 * n..40 * n];
    for i in 0..repeats {
        digests_at(
            head,
            80 * n + 96 * i,
            work,
            keys,
            lent,
            336 * n * i,
            168 * n * i,
            96 * i,
            n,
            q,
        );
    }
}

// ---- The committed pairs of s0, s1, e0, e1. What is made from secrets is left in scratch.

// Writes the pair that stands in scratch out: its first half at the head, its second where the message stood.
fn write_halves(out: &mut [u8], at: usize, work: &[u8], n: usize)
    requires { (n ≤ 2048) × (at + 16 * n ≤ length out.old) × (length work.now ≡ scratch_length) }
    ensures { out.new ≡ put out.old at (part work.now 0 (8 * n) ++ part work.now 49152 (8 * n)) }
{
    scratch::write_out(out, at, work, 0, n);
    scratch::write_out(out, at + 8 * n, work, commitment::MESSAGE, n);
}

// The pair of x - x0, the other half, stands in scratch, for ternary bytes x.
fn pair_difference(work: &mut [u8], k: &[u8], x: &[u8], x0: &[u8], r: &[u8], n: usize, q: u64)
    requires { PublicKeys n q k.now × Polynomial n q x0.now × (length x.now ≡ n) × (length r.now ≡ 3 * n)
        × (length work.old ≡ scratch_length) }
    ensures { let half = other q (ternary q x.now) (poly x0.now) in
        let made = committed q n (keys_of n k.now) (three_of q n r.now) half in
        PairInSlots q n made work.old work.new }
{
    commitment::load_three(work, r, n, q);
    ring::load_ternary(work, commitment::MESSAGE, x, q);
    ring::subtract(work, commitment::MESSAGE, x0, n, q);
    commitment::commit(work, k, n, q);
}

// The pairs of both halves, x0 and then x - x0, for the three r of each, 6n ternary bytes.
fn both_pairs(
    out: &mut [u8],
    at: usize,
    work: &mut [u8],
    k: &[u8],
    x: &[u8],
    x0: &[u8],
    r: &[u8],
    n: usize,
    q: u64,
)
    requires { PublicKeys n q k.now × Polynomial n q x0.now × (length x.now ≡ n) × (length r.now ≡ 6 * n)
        × (length work.old ≡ scratch_length) × (at + 32 * n ≤ length out.old) }
    ensures { let one = committed_pair q n (keys_of n k.now) (part r.now 0 (3 * n)) (poly x0.now) in
        let half = other q (ternary q x.now) (poly x0.now) in
        let two = committed_pair q n (keys_of n k.now) (part r.now (3 * n) (3 * n)) half in
        (out.new ≡ put out.old at (one ++ two)) × Free work.old work.new }
{
    commitment::pair(work, k, x0, &r[0..3 * n], n, q);
    write_halves(out, at, work, n);
    pair_difference(work, k, x, x0, &r[3 * n..6 * n], n, q);
    write_halves(out, at + 16 * n, work, n);
}

// The committed pairs of s0, s1, e0, e1 where they stand in the head of the first message.
fn write_pairs(
    k: Numbers,
    public: &[u8],
    secrets: &[u8],
    s0: &[u8],
    e0: &[u8],
    head: &mut [u8],
    work: &mut [u8],
)
    requires { Loaded k public.now × Polynomial k.ring k.modulus s0.now × Polynomial k.ring k.modulus e0.now
        × (length secrets.now ≡ 14 * k.ring) × (length work.old ≡ scratch_length) × (80 * k.ring ≤ length head.old) }
    ensures { let keys = keys_of k.ring (key_bytes k public.now) in
        let pairs = pairs_bytes k.modulus k.ring secrets.now s0.now e0.now keys in
        (head.new ≡ put head.old (16 * k.ring) pairs) × Free work.old work.new }
{
    let n = k.ring as usize;
    let q = k.modulus;
    both_pairs(
        head,
        16 * n,
        work,
        &public[16 * n..40 * n],
        &secrets[0..n],
        s0,
        &secrets[2 * n..8 * n],
        n,
        q,
    );
    both_pairs(
        head,
        48 * n,
        work,
        &public[16 * n..40 * n],
        &secrets[n..2 * n],
        e0,
        &secrets[8 * n..14 * n],
        n,
        q,
    );
}

// ---- The head of the first message: b0 and b1, the committed pairs, the digests.

// The keys b0 and b1 of the halves.
fn write_keys(
    k: Numbers,
    public: &[u8],
    secrets: &[u8],
    s0: &[u8],
    e0: &[u8],
    head: &mut [u8],
    work: &mut [u8],
)
    requires { Loaded k public.now × Polynomial k.ring k.modulus s0.now × Polynomial k.ring k.modulus e0.now
        × (length secrets.now ≡ 14 * k.ring) × (length work.old ≡ scratch_length) × (16 * k.ring ≤ length head.old) }
    ensures { let a = poly (a_of k public.now) in
        let b = key_bytes_of k.modulus k.ring secrets.now s0.now e0.now (plain k) a in
        (head.new ≡ put head.old 0 (b 0 ++ b 1)) × Free work.old work.new }
{
    let n = k.ring as usize;
    let p = sheet_numbers::plain(k);
    let q = k.modulus;
    bgv::noisy_lent(work, &public[0..8 * n], s0, e0, p, n, q);
    scheme::hand_out(head, 0, work, n);
    bgv::noisy_difference(
        work,
        &public[0..8 * n],
        &secrets[0..n],
        s0,
        &secrets[n..2 * n],
        e0,
        p,
        n,
        q,
    );
    scheme::hand_out(head, 8 * n, work, n);
}

// The whole head. Scratch is given back zeroed.
pub fn write_head(k: Numbers, public: &[u8], lent: LentMaterial, head: &mut [u8], work: &mut [u8])
    requires { let x = material_lent lent in Loaded k public.now × Polynomial k.ring k.modulus x.s0 × Polynomial k.ring k.modulus x.e0
        × (length work.old ≡ scratch_length) × (length head.old ≡ head_length k.ring k.repeats)
        × Drawings k.modulus k.ring k.repeats x.secrets x.vectors x.permutations x.salts }
    ensures { let P = parameters k public.now in let x = material_lent lent.entry in
        (head.new ≡ head_bytes P x.secrets x.s0 x.e0 x.vectors x.permutations x.salts) × (work.new ≡ zeros (length work.old)) }
{
    write_keys(k, public, lent.secrets, lent.s0, lent.e0, head, work);
    write_pairs(k, public, lent.secrets, lent.s0, lent.e0, head, work);
    write_digests(k, public, lent, head, work);
    codec::wipe(work);
}
