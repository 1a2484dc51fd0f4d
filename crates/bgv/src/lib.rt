// BGV encryption and decryption shares over slots of scratch (document 000, sections 5.3 and 6.1): what is worked on stands at 0, a
// second operand at ERROR, and a product has its room from ROOM on. p is lent. What is made from secrets is left in scratch.
#![tactic(auto)]

ghost use Rattle.std.specs.Prelude.{◌≡◌, ◌+◌, ◌*◌, ◌≤◌, ◌<◌, ◌^◌, length};
ghost use Rattle.scratch.specs.Vocabulary.{put, all_below, plus, minus, Below, poly, slot, scratch_length, Polynomial, Free};
ghost use Rattle.codec.specs.Lists.{list};
ghost use Rattle.modular.specs.Modulo.{centre};
ghost use Rattle.modular.specs.Division.{divide};
ghost use Rattle.modular.specs.Internal.{Coprime};
ghost use Rattle.ring.specs.Poly.{mul};
ghost use Rattle.ring.specs.Slots.{coefficient_bytes, encode};
ghost use Rattle.ring.specs.Ternary.{ternary};
ghost use Rattle.scratch.specs.Call.{coefficients};
ghost use Rattle.scratch.specs.Internal.{InSlot};
ghost use Rattle.bgv.specs.Scheme as scheme;
ghost use Rattle.bgv.specs.Scheme.{lent_mask, within};

const ERROR: usize = 16384;

const ROOM: usize = 32768;

// a x + p y, for x at 0 and y at ERROR.
pub fn combine(work: &mut [u8], a: &[u8], p: u64, n: usize, q: u64)
    requires polynomial { Polynomial n q a.now × (length work.old ≡ scratch_length) × (p < q) }
    requires below { Below q n (slot work.old 0) × Below q n (slot work.old 16384) }
    ensures { InSlot q n (scheme.noisy q n p (poly a.now) (slot work.old 0) (slot work.old 16384))
        work.old work.new }
{
    ring_product::multiply(work, 0, ROOM, a, n, q);
    ring::scale_slot(work, ERROR, p, n, q);
    ring::add_slot(work, 0, ERROR, n, q);
}

// a x + p y, for ternary bytes x and y.
pub fn noisy(work: &mut [u8], a: &[u8], x: &[u8], y: &[u8], p: u64, n: usize, q: u64)
    requires { Polynomial n q a.now × (length work.old ≡ scratch_length) × (length x.now ≡ n) × (length y.now ≡ n) × (p < q) }
    ensures { InSlot q n (scheme.noisy q n p (poly a.now) (ternary q x.now) (ternary q y.now))
        work.old work.new }
{
    ring::load_ternary(work, 0, x, q);
    ring::load_ternary(work, ERROR, y, q);
    combine(work, a, p, n, q);
}

// a x + p y, for lent polynomials x and y: another way into the slots, so that no more than `combine` is common to both.
pub fn noisy_lent(work: &mut [u8], a: &[u8], x: &[u8], y: &[u8], p: u64, n: usize, q: u64)
    requires { Polynomial n q a.now × Polynomial n q x.now × Polynomial n q y.now × (length work.old ≡ scratch_length)
        × (p < q) }
    ensures { InSlot q n (scheme.noisy q n p (poly a.now) (poly x.now) (poly y.now))
        work.old work.new }
{
    codec::copy(work, 0, x);
    codec::copy(work, ERROR, y);
    combine(work, a, p, n, q);
}

// Whether every byte is below p.
pub fn is_message(m: &[u8], p: u64) -> bool
    ensures { result ≡ all_below p m.now }
{
    m.iter().all(|b| u64::from(*b) < p)
}

// Loads bytes into a slot, one as one coefficient.
pub fn load_bytes(work: &mut [u8], at: usize, m: &[u8])
    requires { at + 8 * length m.now ≤ length work.old }
    ensures { work.new ≡ put work.old at (encode (length m.now) (coefficients m.now)) }
{
    for (i, b) in m.iter().enumerate() {
        codec::write64(work, at + 8 * i, u64::from(*b));
    }
}

// Adds a message to what stands at 0.
pub fn add_message(work: &mut [u8], m: &[u8], n: usize, q: u64)
    requires { (n ≤ 2048) × (3 ≤ q) × (q < 2 ^ 56) × (length work.old ≡ scratch_length) × (length m.now ≡ n)
        × Below q n (coefficients m.now) × Below q n (slot work.old 0) }
    ensures { InSlot q n (plus (slot work.old 0) (coefficients m.now)) work.old
        work.new }
{
    load_bytes(work, ERROR, m);
    ring::add_slot(work, 0, ERROR, n, q);
}

// x - x0 in the slot at a place, for ternary bytes x and a lent polynomial x0.
pub fn difference(work: &mut [u8], at: usize, x: &[u8], x0: &[u8], n: usize, q: u64)
    requires { Polynomial n q x0.now × (length work.old ≡ scratch_length) × (length x.now ≡ n) × (at ≤ 16384) }
    ensures { work.new ≡ put work.old at (coefficient_bytes q n (scheme.other q (ternary q x.now)
        (poly x0.now))) }
{
    ring::load_ternary(work, at, x, q);
    ring::subtract(work, at, x0, n, q);
}

// a (x - x0) + p (y - y0).
pub fn noisy_difference(
    work: &mut [u8],
    a: &[u8],
    x: &[u8],
    x0: &[u8],
    y: &[u8],
    y0: &[u8],
    p: u64,
    n: usize,
    q: u64,
)
    requires { Polynomial n q a.now × Polynomial n q x0.now × Polynomial n q y0.now × (length work.old ≡ scratch_length)
        × (length x.now ≡ n) × (length y.now ≡ n) × (p < q) }
    ensures { InSlot q n (scheme.noisy q n p (poly a.now) (scheme.other q (ternary q x.now)
        (poly x0.now)) (scheme.other q (ternary q y.now) (poly y0.now))) work.old
        work.new }
{
    difference(work, 0, x, x0, n, q);
    difference(work, ERROR, y, y0, n, q);
    combine(work, a, p, n, q);
}

// v - x u, for x at 0.
fn less_product(work: &mut [u8], u: &[u8], v: &[u8], n: usize, q: u64)
    requires { Polynomial n q u.now × Polynomial n q v.now × (length work.old ≡ scratch_length) × Below q n (slot work.old 0) }
    ensures { InSlot q n (minus q (poly v.now) (mul q n (slot work.old 0) (poly u.now)))
        work.old work.new }
{
    ring_product::multiply(work, 0, ROOM, u, n, q);
    ring::scale_slot(work, 0, q - 1, n, q);
    ring::add(work, 0, v, n, q);
}

// v - s u, for ternary bytes s.
pub fn noise(work: &mut [u8], s: &[u8], u: &[u8], v: &[u8], n: usize, q: u64)
    requires { Polynomial n q u.now × Polynomial n q v.now × (length work.old ≡ scratch_length) × (length s.now ≡ n) }
    ensures { InSlot q n (scheme.noise_in q n (ternary q s.now) (poly u.now) (poly v.now))
        work.old work.new }
{
    ring::load_ternary(work, 0, s, q);
    less_product(work, u, v, n, q);
}

// v - t0 - t1.
pub fn rebuilt(work: &mut [u8], v: &[u8], t0: &[u8], t1: &[u8], n: usize, q: u64)
    requires { Polynomial n q v.now × Polynomial n q t0.now × Polynomial n q t1.now × (length work.old ≡ scratch_length) }
    ensures { InSlot q n (scheme.rebuilt q (poly v.now) (poly t0.now) (poly t1.now))
        work.old work.new }
{
    codec::copy(work, 0, v);
    ring::subtract(work, 0, t0, n, q);
    ring::subtract(work, 0, t1, n, q);
}

// The remainders by p of the centred coefficients of a polynomial, one byte each.
pub fn plain(work: &[u8], vote: &mut [u8], p: u64, n: usize, q: u64)
    requires { (8 * n ≤ length work.now) × (length vote.old ≡ n) × (0 < q) × Below q n (poly work.now) × (0 < p) × (p ≤ 256)
        × (q < 2 ^ 56) }
    ensures { vote.new ≡ list n (scheme.plaintext q p (poly work.now)) }
{
    for i in 0..n {
        let x = codec::read64(work, 8 * i);
        let v = modular::residue(x, p, q);
        codec::write8(vote, i, v as u8);
    }
}

// Whether every number of a lent mask is at most a bound in size.
pub fn bounded(mask: &[u8], bound: u64, n: usize) -> bool
    requires { 8 * n ≤ length mask.now }
    ensures { result ≡ within bound n (lent_mask mask.now) }
{
    for i in 0..n {
        if bound < modular::magnitude(codec::read_signed(mask, 8 * i)) {
            return false;
        }
    }
    true
}

// Loads a lent mask into the slot at ERROR.
pub fn load_mask(work: &mut [u8], mask: &[u8], n: usize, q: u64)
    requires { (8 * n ≤ length mask.now) × (16384 + 8 * n ≤ length work.old) × (0 < q) }
    ensures { work.new ≡ put work.old 16384 (encode n (scheme.residues q (lent_mask mask.now))) }
{
    ring::load_signed(work, ERROR, mask, n, q);
}

// s u + p E, for a lent mask E.
pub fn share(work: &mut [u8], s: &[u8], u: &[u8], mask: &[u8], p: u64, n: usize, q: u64)
    requires { Polynomial n q s.now × Polynomial n q u.now × (length mask.now ≡ 8 * n) × (length work.old ≡ scratch_length)
        × (p < q) }
    ensures { InSlot q n (scheme.share q n p (poly s.now) (poly u.now) (lent_mask mask.now))
        work.old work.new }
{
    codec::copy(work, 0, s);
    load_mask(work, mask, n, q);
    combine(work, u, p, n, q);
}

// Whether the coefficients at the head of scratch, divided by p modulo q and then centred, are at most a bound in size.
fn quotients_within(work: &[u8], bound: u64, p: u64, n: usize, q: u64) -> bool
    requires { (8 * n ≤ length work.now) × Below q n (poly work.now) × (0 < p) × (p ≤ 251) × Coprime p q × (q < 2 ^ 56) }
    ensures { result ≡ within bound n (λ k. centre q (divide q p (poly work.now k))) }
{
    let m = modular::multiplier(p, q);
    for i in 0..n {
        let x = codec::read64(work, 8 * i);
        let quotient = modular::divide(x, p, m, q);
        let size = modular::size(quotient, q);
        if bound < size {
            return false;
        }
    }
    true
}

// Whether the mask that is worked out from a share t of the half key s_i, (t - s_i u) / p modulo q and then centred, is at most a bound
// in size.
pub fn mask_within(
    work: &mut [u8],
    half: &[u8],
    u: &[u8],
    t: &[u8],
    bound: u64,
    p: u64,
    n: usize,
    q: u64,
) -> bool
    requires { Polynomial n q half.now × Polynomial n q u.now × Polynomial n q t.now × (length work.old ≡ scratch_length)
        × (0 < p) × (p ≤ 251) × Coprime p q }
    ensures { (result ≡ within bound n (scheme.recovered_mask q n p (poly half.now) (poly u.now) (poly t.now)))
        × Free work.old work.new }
{
    codec::copy(work, 0, half);
    less_product(work, u, t, n, q);
    quotients_within(work, bound, p, n, q)
}
