// The product of polynomials modulo X^n + 1 and q, by which the library multiplies: by transforms where that is faster and a root of
// X^n + 1 is found, and else by the plain method, in which every coefficient is a sum of n products of a factor by a stretch of a row,
// with one reduction at its end.
#![tactic(auto)]

pub mod root;

ghost use Rattle.std.specs.Prelude.{◌≡◌, ◌+◌, ◌-◌, ◌*◌, ◌%◌, ◌^◌, ◌≤◌, ◌<◌, length};
ghost use Rattle.codec.specs.Bytes.{put, zeros};
ghost use Rattle.ring.specs.Poly.{sum, turn, mul, Below};
ghost use Rattle.ring.specs.Slots.{poly, slot};
ghost use Rattle.ring.specs.Internal.{store};
ghost use Rattle.ring_product.specs.Internal.{Columns};

use crate::root::root;

// Coefficient j of the row from which every coefficient of a product by a is taken: a backwards, and then -a backwards.
fn mirrored(a: &[u8], j: usize, n: usize, q: u64) -> u64
    requires { (j < 2 * n) × (8 * n ≤ length a.now) × (q < 2 ^ 56) × Below q n (poly a.now) }
    ensures { result ≡ turn q n (poly a.now) (n - 1) j % q }
{
    if j < n {
        codec::read64(a, 8 * (n - 1 - j))
    } else {
        modular::negate(codec::read64(a, 8 * (2 * n - 1 - j)), q)
    }
}

// Writes that row of 2n coefficients into the first two slots of the room.
fn mirror(work: &mut [u8], room: usize, a: &[u8], n: usize, q: u64)
    requires { (room + 16 * n ≤ length work.old) × (8 * n ≤ length a.now) × (q < 2 ^ 56) × Below q n (poly a.now) }
    ensures { work.new ≡ store q (2 * n) work.old room (turn q n (poly a.now) (n - 1)) }
{
    for j in 0..2 * n {
        let v = mirrored(a, j, n, q);
        codec::write64(work, room + 8 * j, v);
    }
}

// What the digits of long sums are counted by, 2^28.
const BASE: u64 = 268435456;

// Sums of products by the digits of the factors to that base: low by low, low by high, high by high.
#[derive(Drop)]
struct Partial {
    lo: u64,
    mid: u64,
    hi: u64,
}

// The sums of at most 128 products of the coefficients from x on by those from y on.
fn block(w: &[u8], x: usize, y: usize, n: usize) -> Partial
    requires n_bound { (n ≤ 128) × (x + 8 * n ≤ length w.now) × (y + 8 * n ≤ length w.now) }
    requires below { Below (2 ^ 56) n (slot w.now x) × Below (2 ^ 56) n (slot w.now y) }
    ensures { Columns (slot w.now x) (slot w.now y) n result.lo result.mid result.hi }
{
    let mut lo: u64 = 0;
    let mut mid: u64 = 0;
    let mut hi: u64 = 0;
    for j in 0..n {
        let u = codec::read64(w, x + 8 * j);
        let v = codec::read64(w, y + 8 * j);
        let u0 = u % BASE;
        let u1 = u / BASE % BASE;
        let v0 = v % BASE;
        let v1 = v / BASE % BASE;
        lo += u0 * v0;
        mid += u0 * v1 + u1 * v0;
        hi += u1 * v1;
    }
    Partial { lo, mid, hi }
}

// The sum of n products modulo q: block by block, with the carries taken and one reduction at the end.
fn dot(w: &[u8], x: usize, y: usize, n: usize, q: u64) -> u64
    requires q_nonzero { (0 < q) × (q < 2 ^ 56) × (n ≤ 2048) × (x + 8 * n ≤ length w.now) × (y + 8 * n ≤ length w.now) }
    requires below { Below (2 ^ 56) n (slot w.now x) × Below (2 ^ 56) n (slot w.now y) }
    ensures { result ≡ sum n (λ i. slot w.now x i * slot w.now y i) % q }
{
    let mut d = [0u64; 4];
    for done in (0..n).step_by(128) {
        let m = (n - done).min(128);
        let b = block(w, x + 8 * done, y + 8 * done, m);
        let lo = d[0] + b.lo;
        let mid = d[1] + b.mid + lo / BASE;
        let hi = d[2] + b.hi + mid / BASE;
        d = [lo % BASE, mid % BASE, hi % BASE, d[3] + hi / BASE];
    }
    modular::from_digits(d[0], d[1], d[2], d[3], q)
}

// Fills the slot at `at` with the n coefficients of a product, from the row and the factor that stand in the room.
fn products(work: &mut [u8], at: usize, room: usize, n: usize, q: u64)
    requires { (0 < q) × (q < 2 ^ 56) × (n ≤ 2048) × (at + 8 * n ≤ room) × (room + 24 * n ≤ length work.old)
        × Below q (3 * n) (slot work.old room) }
    ensures { work.new ≡ store q n work.old at (λ k. sum n (λ i. slot work.old room (2 * n + i) * slot
        work.old room (n - 1 - k + i))) }
{
    for k in 0..n {
        let v = dot(work, room + 8 * (2 * n), room + 8 * (n - 1 - k), n, q);
        codec::write64(work, at + 8 * k, v);
    }
}

// Multiplies a slot by a lent polynomial modulo X^n + 1, by the plain method. The room has the length of three slots and lies behind the
// slot; it is zero afterwards.
pub fn plain(work: &mut [u8], at: usize, room: usize, a: &[u8], n: usize, q: u64)
    requires q_nonzero { (0 < q) × (q < 2 ^ 56) × (n ≤ 2048) × (at + 8 * n ≤ room) × (room + 24 * n ≤ length work.old)
        × (8 * n ≤ length a.now) }
    requires below { Below q n (slot work.old at) × Below q n (poly a.now) }
    ensures { work.new ≡ put (store q n work.old at (mul q n (slot work.old at)
        (poly a.now))) room (zeros (24 * n)) }
{
    mirror(work, room, a, n, q);
    ring::copy_slot(work, room + 16 * n, at, n);
    products(work, at, room, n, q);
    codec::wipe(&mut work[room..room + 24 * n]);
}

// Multiplies a slot by a lent polynomial modulo X^n + 1. The room has the length of three slots and lies behind the slot; it is zero
// afterwards. What the contract says is independent of the method.
pub fn multiply(work: &mut [u8], at: usize, room: usize, a: &[u8], n: usize, q: u64)
    requires q_nonzero { (0 < q) × (q < 2 ^ 56) × (n ≤ 2048) × (at + 8 * n ≤ room) × (room + 24 * n ≤ length work.old)
        × (8 * n ≤ length a.now) }
    requires below { Below q n (slot work.old at) × Below q n (poly a.now) }
    ensures { work.new ≡ put (store q n work.old at (mul q n (slot work.old at)
        (poly a.now))) room (zeros (24 * n)) }
{
    match root(n, q) {
        Some(w) => {
            ring_transform::multiply(work, at, room, a, n, w, q);
            codec::wipe(&mut work[room + 8 * n..room + 24 * n]);
        }
        None => plain(work, at, room, a, n, q),
    }
}
