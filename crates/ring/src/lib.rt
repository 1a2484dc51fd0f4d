// Polynomials modulo X^n + 1 and q over lent bytes (document 01, "Ring and scheme"), for q below 2^56 and n at most 2048.
// A polynomial is 8n bytes. Scratch is a row of slots of 8n bytes, and a slot is named by its place in bytes: at, from, room.
// A lent polynomial is loaded into a slot by `codec::copy`; the product has a crate of its own.
#![tactic(auto)]

ghost use Rattle.std.specs.Prelude.{◌≡◌, ◌+◌, ◌-◌, ◌*◌, ◌/◌, ◌%◌, ◌^◌, ◌≤◌, ◌<◌, length};
ghost use Rattle.codec.specs.Bytes.{put};
ghost use Rattle.codec.specs.Lists.{list, all_below};
ghost use Rattle.modular.specs.Modulo.{remainder};
ghost use Rattle.ring.specs.Poly.{plus, minus, scale, Below};
ghost use Rattle.ring.specs.Slots.{poly, slot, encode};
ghost use Rattle.ring.specs.Internal.{from_signed, store, Slots, sign};
ghost use Rattle.ring.specs.Ternary.{meaning, ternary, count};

// ---- range tests and counts

// Whether every whole coefficient of s is below q.
pub fn in_range(s: &[u8], q: u64) -> bool
    ensures { result ≡ all_below q (list (length s.now / 8) (poly s.now)) }
{
    for i in 0..s.len() / 8 {
        if q <= codec::read64(s, 8 * i) {
            return false;
        }
    }
    true
}

// Whether every byte is ternary.
pub fn is_ternary(t: &[u8]) -> bool
    ensures { result ≡ all_below 3 t.now }
{
    t.iter().all(|&b| b < 3)
}

// How often a byte stands in t. `filter(..).count()` takes twice as long: the compiler does not take several bytes of it at a time.
pub fn count_of(t: &[u8], v: u8) -> usize
    ensures { result ≡ count v t.now }
{
    let mut n = 0;
    for b in t {
        if *b == v {
            n += 1;
        }
    }
    n
}

// ---- slots

// The coefficient that a ternary byte means. It is computed, as a branch on the byte is mispredicted too often: `above0`, `above1`
// and `above2` say whether it is above 0, 1 and 2, since t + 2^62 - 1 - m is at least 2^62 where t is above m, and only there. What is
// divided by 2^62 is shifted.
pub fn from_ternary(b: u8, q: u64) -> u64
    requires { 1 < q }
    ensures { result ≡ remainder q (meaning b) }
{
    let t = u64::from(b);
    let above0 = (t + 4611686018427387903) / 4611686018427387904;
    let above1 = (t + 4611686018427387902) / 4611686018427387904;
    let above2 = (t + 4611686018427387901) / 4611686018427387904;
    above0 - above1 + (above1 - above2) * (q - 1)
}

// Loads ternary bytes into a slot.
pub fn load_ternary(work: &mut [u8], at: usize, t: &[u8], q: u64)
    requires { (1 < q) × (at + 8 * length t.now ≤ length work.old) }
    ensures { work.new ≡ put work.old at (encode (length t.now) (ternary q t.now)) }
{
    for (i, b) in t.iter().enumerate() {
        codec::write64(work, at + 8 * i, from_ternary(*b, q));
    }
}

// Loads signed 64-bit numbers into a slot, each reduced modulo q.
pub fn load_signed(work: &mut [u8], at: usize, e: &[u8], n: usize, q: u64)
    requires { (0 < q) × (at + 8 * n ≤ length work.old) × (8 * n ≤ length e.now) }
    ensures { work.new ≡ put work.old at (encode n (from_signed q e.now)) }
{
    for i in 0..n {
        let x = codec::read_signed(e, 8 * i);
        codec::write64(work, at + 8 * i, modular::reduce(x, q));
    }
}

// Copies a slot into another. `copy_within` would ask the host for C's memmove, which nothing else here needs.
pub fn copy_slot(work: &mut [u8], to: usize, from: usize, n: usize)
    requires { Slots n to from work.old }
    ensures { work.new ≡ put work.old to (encode n (slot work.old from)) }
{
    for i in 0..n {
        let x = codec::read64(work, from + 8 * i);
        codec::write64(work, to + 8 * i, x);
    }
}

// x + y or x - y.
fn combine(x: u64, y: u64, minus: bool, q: u64) -> u64
    requires { (x < q) × (y < q) × (q < 2 ^ 56) }
    ensures { result ≡ (x + sign q minus * y) % q }
{
    if minus {
        modular::subtract(x, y, q)
    } else {
        modular::add(x, y, q)
    }
}

// Adds a lent polynomial to a slot, or subtracts it.
fn combine_lent(work: &mut [u8], at: usize, a: &[u8], minus: bool, n: usize, q: u64)
    requires { (q < 2 ^ 56) × (at + 8 * n ≤ length work.old) × (8 * n ≤ length a.now) × Below q n (slot work.old at)
        × Below q n (poly a.now) }
    ensures { work.new ≡ store q n work.old at (plus (slot work.old at) (scale (sign q minus)
        (poly a.now))) }
{
    for i in 0..n {
        let x = codec::read64(work, at + 8 * i);
        let y = codec::read64(a, 8 * i);
        codec::write64(work, at + 8 * i, combine(x, y, minus, q));
    }
}

// Adds another slot to a slot, or subtracts it: scratch is split between the two.
fn combine_slot(work: &mut [u8], at: usize, from: usize, minus: bool, n: usize, q: u64)
    requires { (q < 2 ^ 56) × Slots n at from work.old × Below q n (slot work.old at) × Below q n (slot work.old from) }
    ensures { work.new ≡ store q n work.old at (plus (slot work.old at) (scale (sign q minus)
        (slot work.old from))) }
{
    if from < at {
        let (low, high) = work.split_at_mut(at);
        combine_lent(high, 0, &low[from..], minus, n, q);
    } else {
        let (low, high) = work.split_at_mut(from);
        combine_lent(low, at, high, minus, n, q);
    }
}

// Adds a lent polynomial to a slot.
pub fn add(work: &mut [u8], at: usize, a: &[u8], n: usize, q: u64)
    requires { (q < 2 ^ 56) × (at + 8 * n ≤ length work.old) × (8 * n ≤ length a.now) × Below q n (slot work.old at)
        × Below q n (poly a.now) }
    ensures { work.new ≡ store q n work.old at (plus (slot work.old at) (poly a.now)) }
{
    combine_lent(work, at, a, false, n, q);
}

// Subtracts a lent polynomial from a slot.
pub fn subtract(work: &mut [u8], at: usize, a: &[u8], n: usize, q: u64)
    requires { (q < 2 ^ 56) × (at + 8 * n ≤ length work.old) × (8 * n ≤ length a.now) × Below q n (slot work.old at)
        × Below q n (poly a.now) }
    ensures { work.new ≡ store q n work.old at (minus q (slot work.old at) (poly a.now)) }
{
    combine_lent(work, at, a, true, n, q);
}

// Adds another slot to a slot.
pub fn add_slot(work: &mut [u8], at: usize, from: usize, n: usize, q: u64)
    requires { (q < 2 ^ 56) × Slots n at from work.old × Below q n (slot work.old at) × Below q n (slot work.old from) }
    ensures { work.new ≡ store q n work.old at (plus (slot work.old at)
        (slot work.old from)) }
{
    combine_slot(work, at, from, false, n, q);
}

// Subtracts another slot from a slot.
pub fn subtract_slot(work: &mut [u8], at: usize, from: usize, n: usize, q: u64)
    requires { (q < 2 ^ 56) × Slots n at from work.old × Below q n (slot work.old at) × Below q n (slot work.old from) }
    ensures { work.new ≡ store q n work.old at (minus q (slot work.old at)
        (slot work.old from)) }
{
    combine_slot(work, at, from, true, n, q);
}

// p x. Two kinds of p need no long product: one that leaves p x below 2^64, and -1.
fn scaled(p: u64, x: u64, q: u64) -> u64
    requires { (p < q) × (x < q) × (q < 2 ^ 56) }
    ensures { result ≡ p * x % q }
{
    if p < 256 {
        return p * x % q;
    }
    if p == q - 1 {
        return modular::negate(x, q);
    }
    modular::multiply(p, x, q)
}

// Multiplies a slot by a number.
pub fn scale_slot(work: &mut [u8], at: usize, p: u64, n: usize, q: u64)
    requires { (p < q) × (q < 2 ^ 56) × (at + 8 * n ≤ length work.old) × Below q n (slot work.old at) }
    ensures { work.new ≡ store q n work.old at (scale p (slot work.old at)) }
{
    for i in 0..n {
        let x = codec::read64(work, at + 8 * i);
        codec::write64(work, at + 8 * i, scaled(p, x, q));
    }
}
