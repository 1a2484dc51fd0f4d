// The digests of a repetition: SHA3-256 over a leading byte, a salt and what the digest covers.
ghost use Rattle.std.specs.Prelude.{◌≡◌, true, cond, ◌∷◌, ◌++◌, ◌+◌, ◌*◌, ◌/◌, ◌≤◌, ◌<◌, ◌^◌, length, take};
ghost use Rattle.scratch.specs.Vocabulary.{part, words, all_below, Below, poly, scratch_length, Free};
ghost use Rattle.sha3.specs.Sponge.{sha3};
ghost use Rattle.hasher.specs.Internal.{holding, updated};
ghost use Rattle.commitment.specs.Commitment.{keys_of};
ghost use Rattle.commitment.specs.Internal.{PublicKeys};
ghost use Rattle.vector.specs.Vector.{vector, ternaries, add, subtract};
ghost use Rattle.vector.specs.Permutation.{entries, apply, extend};
ghost use Rattle.stern.specs.Argument.{string1, string3};
ghost use Rattle.stern.specs.Shortness.{equations, right_hand_sides};

use crate::equations::equation_pair;
use hasher::Hasher;

// A hasher that has taken in a leading byte and a salt.
fn begin(lead: u8, salt: &[u8]) -> Hasher
    ensures { result ≡ holding (lead ∷ salt.now) }
{
    let head = [lead; 1];
    Hasher::new().absorbed(&head).absorbed(salt)
}

// The digest of a leading byte, a salt and a message.
pub fn tagged(lead: u8, salt: &[u8], m: &[u8]) -> [u8; 32]
    requires { length salt.now ≡ 32 }
    ensures { result ≡ sha3 (lead ∷ (salt.now ++ m.now)) }
{
    begin(lead, salt).absorbed(m).finish()
}

// A hasher that takes in a pair too, which stands in scratch.
fn absorb_pair(h: Hasher, work: &[u8], n: usize) -> Hasher
    requires { 49152 + 8 * n ≤ length work.now }
    ensures { result ≡ updated h (part work.now 0 (8 * n) ++ part work.now 49152 (8 * n)) }
{
    let one = h.absorbed(&work[0..8 * n]);
    one.absorbed(&work[commitment::MESSAGE..commitment::MESSAGE + 8 * n])
}

// Digest 1: of P and the equations applied to a vector, with their right-hand sides subtracted or not.
pub fn equations_digest(
    work: &mut [u8],
    k: &[u8],
    c: &[u8],
    less: bool,
    x: &[u8],
    p: &[u8],
    salt: &[u8],
    n: usize,
    q: u64,
) -> [u8; 32]
    requires public_keys { PublicKeys n q k.now × (length work.old ≡ scratch_length) × (length x.now ≡ 336 * n)
        × Below q (length x.now / 8) (poly x.now) }
    requires c_len { (less ≡ true → (length c.now ≡ 64 * n) × Below q (length c.now / 8) (poly c.now)) × (length salt.now ≡ 32) }
    ensures { (result ≡ sha3 (string1 salt.now p.now
        (cond less (subtract q (equations q n (keys_of n k.now) (take (14 * n) (vector x.now))) (right_hand_sides q n c.now))
        (equations q n (keys_of n k.now) (take (14 * n) (vector x.now)))))) × Free work.old work.new }
{
    let a = begin(1, salt).absorbed(p);
    equation_pair(work, k, c, less, x, 2 * n, 0, 0, n, q);
    let b = absorb_pair(a, work, n);
    equation_pair(work, k, c, less, x, 8 * n, n, 4 * n, n, q);
    absorb_pair(b, work, n).finish()
}

// Digest 2 or 3 of a permuted vector, which is gathered in scratch.
pub fn gathered_digest(
    lead: u8,
    work: &mut [u8],
    p: &[u8],
    x: &[u8],
    salt: &[u8],
    n: usize,
) -> [u8; 32]
    requires { (n ≤ 2048) × (length work.old ≡ scratch_length) × (length p.now ≡ 168 * n) × (length x.now ≡ 336 * n)
        × (length salt.now ≡ 32) × (all_below (42 * n) (entries p.now) ≡ true) }
    ensures { (result ≡ sha3 (lead ∷ (salt.now ++ words (apply (entries p.now) (vector x.now)))))
        × Free work.old work.new }
{
    vector::gather(work, 0, p, x, 42 * n);
    tagged(lead, salt, &work[0..336 * n])
}

// Digest 3 of the producer: the extended unknowns and the mask vector, added and permuted.
pub fn masked_digest(
    work: &mut [u8],
    p: &[u8],
    x: &[u8],
    r: &[u8],
    salt: &[u8],
    n: usize,
    q: u64,
) -> [u8; 32]
    requires n_bound { (n ≤ 2048) × (3 ≤ q) × (q < 2 ^ 56) × (length work.old ≡ scratch_length) × (length p.now ≡ 168 * n)
        × (length x.now ≡ 14 * n) × (length r.now ≡ 336 * n) × (length salt.now ≡ 32) }
    requires p_value { (all_below (42 * n) (entries p.now) ≡ true) × (all_below q (vector r.now) ≡ true) }
    ensures { (result ≡ sha3 (string3 salt.now (apply (entries p.now) (add q (ternaries q (extend (14 * n) x.now))
        (vector r.now))))) × Free work.old work.new }
{
    let (minus, zeros) = vector::missing(x);
    vector::gather_masked(work, 0, p, x, minus, zeros, r, 42 * n, q);
    tagged(3, salt, &work[0..336 * n])
}
