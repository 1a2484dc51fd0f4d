// Vectors of numbers modulo q and permutations of their entries, over lent bytes: specs/Vector.antt and specs/Permutation.antt.
// A number takes 8 bytes, an entry of a permutation 4, a ternary number 1. A ternary vector x of L numbers is never stored in its
// extended form: `minus` and `zeros` say how many -1s and 0s stand behind x, and each of the 3L numbers is made where it is used.
#![tactic(auto)]

pub mod tests;

ghost use Rattle.std.specs.Prelude.{◌≡◌, true, cond, ◌+◌, ◌-◌, ◌*◌, ◌^◌, ◌≤◌, ◌<◌, ltb, length, get_or};
ghost use Rattle.codec.specs.Bytes.{put, words, zeros};
ghost use Rattle.codec.specs.Lists.{all_below};
ghost use Rattle.ring.specs.Ternary.{count};
ghost use Rattle.vector.specs.Vector.{vector, ternaries, add};
ghost use Rattle.vector.specs.Permutation.{entries, apply, extend};

// Writes n zeros into lent bytes, from a place on.
pub fn clear(work: &mut [u8], at: usize, n: usize)
    requires { at + n ≤ length work.old }
    ensures { work.new ≡ put work.old at (zeros n) }
{
    codec::wipe(&mut work[at..at + n]);
}

// ---- one number

// Entry i of a permutation.
pub fn entry(p: &[u8], i: usize) -> usize
    requires { 4 * i + 4 ≤ length p.now }
    ensures { result ≡ get_or (entries p.now) i 0 }
{
    codec::read32(p, 4 * i) as usize
}

// Number i of a vector.
pub fn component(x: &[u8], i: usize) -> u64
    requires { 8 * i + 8 ≤ length x.now }
    ensures { result ≡ get_or (vector x.now) i 0 }
{
    codec::read64(x, 8 * i)
}

// v where j is below m, and else 0. It is computed, as a branch is mispredicted too often where j is an entry of a random
// permutation: m + 2^62 - 1 - j is at least 2^62 where j is below m, and only there.
fn below(j: usize, m: usize, v: usize) -> usize
    requires { (j < 2 ^ 62) × (m < 2 ^ 62) }
    ensures { result ≡ cond (ltb j m) v 0 }
{
    (m + 4611686018427387903 - j) / 4611686018427387904 * v
}

// How many -1s and 0s stand behind x in its extended form.
pub fn missing(x: &[u8]) -> (usize, usize)
    ensures { (result.0 ≡ length x.now - count 2 x.now) × (result.1 ≡ length x.now - count 0 x.now) }
{
    (
        x.len() - ring::count_of(x, 2),
        x.len() - ring::count_of(x, 0),
    )
}

// Byte j of the extended form of x: x itself, its n bytes; behind it `minus` bytes for -1, up to m; `zeros` bytes for 0, up to z; and
// bytes for 1. Past x the first byte of x is read and does not count.
pub fn extended(x: &[u8], minus: usize, zeros: usize, j: usize) -> u8
    requires { (3 * length x.now < 2 ^ 62) × (minus ≡ length x.now - count 2 x.now) × (zeros ≡ length x.now - count 0 x.now)
        × (j < 3 * length x.now) }
    ensures { result ≡ get_or (extend (length x.now) x.now) j 0 }
{
    let n = x.len();
    let m = n + minus;
    let z = m + zeros;
    let i = below(j, n, j);
    let b = below(j, n, x[i] as usize);
    let two = below(j, m, 2) - below(j, n, 2);
    let one = 1 - below(j, z, 1);
    (b + two + one) as u8
}

// Number j of the extended form of x plus r.
fn masked(x: &[u8], minus: usize, zeros: usize, r: &[u8], j: usize, q: u64) -> u64
    requires x_bound { (3 * length x.now < 2 ^ 62) × (minus ≡ length x.now - count 2 x.now) × (zeros ≡ length x.now - count 0 x.now)
        × (j < 3 * length x.now) }
    requires lt_q { (1 < q) × (q < 2 ^ 56) × (8 * j + 8 ≤ length r.now) × (all_below q (vector r.now) ≡ true) }
    ensures { result ≡ get_or (add q (ternaries q (extend (length x.now) x.now)) (vector r.now)) j 0 }
{
    let b = extended(x, minus, zeros, j);
    let u = ring::from_ternary(b, q);
    let v = component(r, j);
    modular::add(u, v, q)
}

// ---- vectors

// The entries of x in the order of the permutation p.
pub fn gather(work: &mut [u8], at: usize, p: &[u8], x: &[u8], n: usize)
    requires { (length p.now ≡ 4 * n) × (length x.now ≡ 8 * n) × (at + 8 * n ≤ length work.old)
        × (all_below n (entries p.now) ≡ true) }
    ensures { work.new ≡ put work.old at (words (apply (entries p.now) (vector x.now))) }
{
    for i in 0..n {
        let j = entry(p, i);
        let y = component(x, j);
        codec::write64(work, at + 8 * i, y);
    }
}

// The bytes of the extended form of x in the order of the permutation p.
pub fn gather_extended(
    out: &mut [u8],
    at: usize,
    p: &[u8],
    x: &[u8],
    minus: usize,
    zeros: usize,
    n: usize,
)
    requires n_value { (n ≡ 3 * length x.now) × (minus ≡ length x.now - count 2 x.now) × (zeros ≡ length x.now - count 0 x.now) }
    requires p_len { (length p.now ≡ 4 * n) × (at + n ≤ length out.old) × (all_below n (entries p.now) ≡ true) }
    ensures { out.new ≡ put out.old at (apply (entries p.now) (extend (length x.now)
        x.now)) }
{
    for i in 0..n {
        let b = extended(x, minus, zeros, entry(p, i));
        out[at + i] = b;
    }
}

// The extended form of x plus r.
pub fn mask(
    out: &mut [u8],
    at: usize,
    x: &[u8],
    minus: usize,
    zeros: usize,
    r: &[u8],
    n: usize,
    q: u64,
)
    requires n_value { (n ≡ 3 * length x.now) × (minus ≡ length x.now - count 2 x.now) × (zeros ≡ length x.now - count 0 x.now) }
    requires lt_q { (1 < q) × (q < 2 ^ 56) × (length r.now ≡ 8 * n) × (all_below q (vector r.now) ≡ true)
        × (at + 8 * n ≤ length out.old) }
    ensures { out.new ≡ put out.old at
        (words (add q (ternaries q (extend (length x.now) x.now)) (vector r.now))) }
{
    for i in 0..n {
        let v = masked(x, minus, zeros, r, i, q);
        codec::write64(out, at + 8 * i, v);
    }
}

// The extended form of x plus r in the order of the permutation p, with no vector in between.
pub fn gather_masked(
    work: &mut [u8],
    at: usize,
    p: &[u8],
    x: &[u8],
    minus: usize,
    zeros: usize,
    r: &[u8],
    n: usize,
    q: u64,
)
    requires n_value { (n ≡ 3 * length x.now) × (minus ≡ length x.now - count 2 x.now) × (zeros ≡ length x.now - count 0 x.now) }
    requires lt_q { (1 < q) × (q < 2 ^ 56) × (length r.now ≡ 8 * n) × (all_below q (vector r.now) ≡ true) }
    requires p_len { (length p.now ≡ 4 * n) × (at + 8 * n ≤ length work.old) × (all_below n (entries p.now) ≡ true) }
    ensures { work.new ≡ put work.old at (words (apply (entries p.now)
        (add q (ternaries q (extend (length x.now) x.now)) (vector r.now)))) }
{
    for i in 0..n {
        let v = masked(x, minus, zeros, r, entry(p, i), q);
        codec::write64(work, at + 8 * i, v);
    }
}

// The numbers of ternary bytes w plus t.
pub fn sum(work: &mut [u8], at: usize, w: &[u8], t: &[u8], n: usize, q: u64)
    requires w_len { (length w.now ≡ n) × (length t.now ≡ 8 * n) × (at + 8 * n ≤ length work.old) }
    requires lt_q { (1 < q) × (q < 2 ^ 56) × (all_below q (vector t.now) ≡ true) }
    ensures { work.new ≡ put work.old at (words (add q (ternaries q w.now)
        (vector t.now))) }
{
    for i in 0..n {
        let u = ring::from_ternary(w[i], q);
        let v = modular::add(u, component(t, i), q);
        codec::write64(work, at + 8 * i, v);
    }
}
