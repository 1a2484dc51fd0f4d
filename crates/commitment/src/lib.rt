// The commitment to a polynomial (document 01, "Ring and scheme"), worked out in the slots of scratch: specs/Commitment.antt, with its
// laws in proofs/Additive.antt and proofs/Opening.antt.
#![tactic(auto)]

ghost use Rattle.std.specs.Prelude.{◌≡◌, ◌+◌, ◌*◌, ◌≤◌, length};
ghost use Rattle.scratch.specs.Vocabulary.{Below, poly, slot, scratch_length, Polynomial, Free};
ghost use Rattle.ring.specs.Internal.{Slots};
ghost use Rattle.commitment.specs.Commitment.{keys_of, three_of, committed, opens};
ghost use Rattle.commitment.specs.Internal.{three_at, PublicKeys, PairInSlots, with_product, with_three};

const TWO: usize = 16384;

const THREE: usize = 32768;

// Where m stands, and then the second half of the pair.
pub const MESSAGE: usize = 49152;

const SPARE: usize = 65536;

const ROOM: usize = 81920;

// Adds the product of what stands in one slot with a lent polynomial to what stands in another.
fn add_product(work: &mut [u8], to: usize, from: usize, a: &[u8], n: usize, q: u64)
    requires { Polynomial n q a.now × (length work.old ≡ scratch_length) × Slots n to from work.old × (to + 8 * n ≤ 81920)
        × (from + 8 * n ≤ 81920) × Below q n (slot work.old to) × Below q n (slot work.old from) }
    ensures { work.new ≡ with_product q n work.old to from (poly a.now) }
{
    ring_product::multiply(work, from, ROOM, a, n, q);
    ring::add_slot(work, to, from, n, q);
}

// The pair of r1, r2, r3 and m, which stand in the first four slots.
pub fn commit(work: &mut [u8], k: &[u8], n: usize, q: u64)
    requires public_keys { PublicKeys n q k.now × (length work.old ≡ scratch_length) }
    requires below { Below q n (slot work.old 0) × Below q n (slot work.old 16384) × Below q n (slot work.old 32768)
        × Below q n (slot work.old 49152) }
    ensures { PairInSlots q n (committed q n (keys_of n k.now) (three_at work.old)
        (slot work.old 49152)) work.old work.new }
{
    ring::copy_slot(work, SPARE, THREE, n);
    add_product(work, MESSAGE, SPARE, &k[16 * n..24 * n], n, q);
    ring::add_slot(work, MESSAGE, TWO, n, q);
    add_product(work, 0, TWO, &k[0..8 * n], n, q);
    add_product(work, 0, THREE, &k[8 * n..16 * n], n, q);
}

// Puts three polynomials of ternary bytes, one after the other, into the first three slots.
pub fn load_three(work: &mut [u8], r: &[u8], n: usize, q: u64)
    requires { (n ≤ 2048) × (3 ≤ q) × (length r.now ≡ 3 * n) × (length work.old ≡ scratch_length) }
    ensures { work.new ≡ with_three n work.old (three_of q n r.now) }
{
    ring::load_ternary(work, 0, &r[0..n], q);
    ring::load_ternary(work, TWO, &r[n..2 * n], q);
    ring::load_ternary(work, THREE, &r[2 * n..3 * n], q);
}

// The pair of a lent polynomial m and of the three r in ternary bytes.
pub fn pair(work: &mut [u8], k: &[u8], m: &[u8], r: &[u8], n: usize, q: u64)
    requires { PublicKeys n q k.now × Polynomial n q m.now × (length r.now ≡ 3 * n) × (length work.old ≡ scratch_length) }
    ensures { PairInSlots q n (committed q n (keys_of n k.now) (three_of q n r.now) (poly m.now))
        work.old work.new }
{
    load_three(work, r, n, q);
    codec::copy(work, MESSAGE, m);
    commit(work, k, n, q);
}

// Whether a lent pair is that of m and the three r.
pub fn opens(work: &mut [u8], k: &[u8], halves: &[u8], m: &[u8], r: &[u8], n: usize, q: u64) -> bool
    requires { PublicKeys n q k.now × Polynomial n q m.now × (length r.now ≡ 3 * n) × (length work.old ≡ scratch_length)
        × (length halves.now ≡ 16 * n) }
    ensures { (result ≡ opens q n (keys_of n k.now) halves.now (three_of q n r.now) (poly m.now))
        × Free work.old work.new }
{
    pair(work, k, m, r, n, q);
    codec::equal(&halves[0..8 * n], &work[0..8 * n])
        && codec::equal(&halves[8 * n..16 * n], &work[MESSAGE..MESSAGE + 8 * n])
}
