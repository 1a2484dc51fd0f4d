// The product of polynomials modulo X^n + 1 and q by number-theoretic transforms, over slots of scratch, for a power of two n of 2 to 2048,
// an odd q below 2^56 and a root w: w^n is -1 modulo q. q need not be prime: nothing is inverted but powers of two and of w, whose inverses
// are powers of (q + 1) / 2 and -w^(n - k) for w^k.
#![tactic(auto)]

ghost use Rattle.std.specs.Prelude.{◌≡◌, length};
ghost use Prim.Native.Nat.{◌+◌, ◌-◌, ◌*◌, ◌%◌, ◌^◌, ◌≤◌, ◌<◌};
ghost use Rattle.codec.specs.Bytes.{put, zeros, words};
ghost use Rattle.modular.specs.Roots.{Root};
ghost use Rattle.montgomery.specs.Internal.{Modulus, radix_inverse};
ghost use Rattle.ring.specs.Poly.{mul, Below};
ghost use Rattle.ring.specs.Slots.{poly, slot, encode};
ghost use Rattle.ring.specs.Internal.{store, Slots};
ghost use Rattle.vector.specs.Internal.{Vector};
ghost use Rattle.ring_transform.specs.Internal.{numbers, two_to, level, united, Powers, Node, Transformable};
ghost use Rattle.ring_transform.specs.Internal.{transform as transformed, untransform as untransformed};

// ---- the table of powers

// Entries from..to of the table, each from the one that stands `step` before it, where z is w^step times 2^56.
fn extend(p: &mut [u64], from: usize, to: usize, step: usize, z: u64, w: u64, i: u64, q: u64)
    requires { Modulus q i × (z ≡ w ^ step * 72057594037927936 % q) × Powers q w from p.old × (0 < step) × (step ≤ from) × (from ≤ to)
        × (to ≤ length p.old) × (to < 4294967296) }
    ensures { Powers q w to p.new }
{
    for k in from..to {
        p[k] = montgomery::product(p[k - step], z, i, q);
    }
}

// The powers of w up to w^n and a few more, each times 2^56. After the first nine each is made from the eighth before it, so that the
// products do not wait for each other.
fn powers(p: &mut [u64], n: usize, w: u64, i: u64, q: u64)
    requires { Modulus q i × (1 < q) × (w < q) × (n ≤ 2048) × (n + 9 ≤ length p.old) }
    ensures { Powers q w (n + 1) p.new }
{
    p[0] = montgomery::power_of_two(56, q);
    let z = montgomery::product(w, montgomery::power_of_two(112, q), i, q);
    extend(p, 1, 9, 1, z, w, i, q);
    let z8 = p[8];
    extend(p, 9, n + 9, 8, z8, w, i, q);
}

// ---- a level of the transform

// One level: a + z b and a - z b of the halves a and b of the 2m numbers at a place, where z is held times 2^56.
fn butterflies(work: &mut [u8], at: usize, m: usize, z: u64, i: u64, q: u64)
    requires { Modulus q i × (z < q) × (at + 8 * (m + m) ≤ length work.old) × Vector q (m + m) (numbers (m + m) work.old at) }
    ensures { work.new ≡ put work.old at (words (level q (z * radix_inverse q) m
        (numbers (m + m) work.old at))) }
{
    for j in 0..m {
        let a = codec::read64(work, at + 8 * j);
        let b = codec::read64(work, at + 8 * (m + j));
        let y = montgomery::product(b, z, i, q);
        let u = modular::corrected(a + y, q);
        let v = modular::corrected(a + (q - y), q);
        codec::write64(work, at + 8 * j, u);
        codec::write64(work, at + 8 * (m + j), v);
    }
}

// ---- and back

// The inverse of a level, twice over: u + v, and (v - u) y, of the halves u and v of the 2m numbers at a place, where y is held times 2^56.
fn butterflies_back(work: &mut [u8], at: usize, m: usize, y: u64, i: u64, q: u64)
    requires { Modulus q i × (y < q) × (at + 8 * (m + m) ≤ length work.old) × Vector q (m + m) (numbers (m + m) work.old at) }
    ensures { work.new ≡ put work.old at (words (united q (y * radix_inverse q) (numbers m work.old at)
        (numbers m work.old (at + 8 * m)))) }
{
    for j in 0..m {
        let u = codec::read64(work, at + 8 * j);
        let v = codec::read64(work, at + 8 * (m + j));
        let a = modular::corrected(u + v, q);
        let d = modular::corrected(v + (q - u), q);
        let b = montgomery::product(d, y, i, q);
        codec::write64(work, at + 8 * j, a);
        codec::write64(work, at + 8 * (m + j), b);
    }
}

// ---- products of numbers

// The products of the numbers of two slots, each divided by 2^56, into the first.
fn pointwise(work: &mut [u8], at: usize, from: usize, n: usize, i: u64, q: u64)
    requires { Modulus q i × Slots n at from work.old × Below q n (slot work.old at) × Below q n (slot work.old from) }
    ensures { work.new ≡ put work.old at (encode n (λ k. slot work.old from k * radix_inverse q
        * slot work.old at k % q)) }
{
    for k in 0..n {
        let x = codec::read64(work, at + 8 * k);
        let y = codec::read64(work, from + 8 * k);
        let v = montgomery::product(x, y, i, q);
        codec::write64(work, at + 8 * k, v);
    }
}

// h times each number of a slot, divided by 2^56.
fn scaled(work: &mut [u8], at: usize, h: u64, n: usize, i: u64, q: u64)
    requires { Modulus q i × (h < q) × (at + 8 * n ≤ length work.old) × Below q n (slot work.old at) }
    ensures { work.new ≡ put work.old at (encode n (λ k. h * radix_inverse q
        * slot work.old at k % q)) }
{
    for k in 0..n {
        let x = codec::read64(work, at + 8 * k);
        let v = montgomery::product(x, h, i, q);
        codec::write64(work, at + 8 * k, v);
    }
}

// The l for which n is 2^l.
fn exponent(n: usize) -> usize
    requires { (2 ≤ n) × (n ≤ 2048) × ((j : Prim.Native.Nat.ℕ) × (n ≡ 2 ^ j)) }
    ensures { (n ≡ two_to result) × (1 ≤ result) × (result ≤ 11) }
{
    n.trailing_zeros() as usize
}

// ---- the transform of a slot and back, and the product

// What a product modulo X^n + 1 and q goes by: a root w, the table of its powers, each times 2^56, and -1 / q modulo 2^56.
#[derive(Drop)]
struct Table<'a> {
    powers: &'a [u64],
    n: usize,
    w: u64,
    i: u64,
    q: u64,
}

impl Table<'_> {
    // The transform modulo X^m - w^e of the m numbers at a place, in place, where m is 2^l.
    fn transform(&self, work: &mut [u8], at: usize, m: usize, l: usize, e: usize)
        requires { let t = self.now in Node t.q t.i t.w t.n m l e t.powers.now work.old at }
        ensures { let t = self.now in work.new ≡ put work.old at (words (transformed t.q t.w t.n l e (numbers m work.old at))) }
    {
        let h = m / 2;
        let k = e / 2;
        butterflies(work, at, h, self.powers[k], self.i, self.q);
        if l == 1 {
            return;
        }
        self.transform(work, at, h, l - 1, k);
        self.transform(work, at + 8 * h, h, l - 1, k + self.n);
    }

    // m times the inverse of the transform modulo X^m - w^e of the m numbers at a place, in place, where m is 2^l.
    fn untransform(&self, work: &mut [u8], at: usize, m: usize, l: usize, e: usize)
        requires { let t = self.now in Node t.q t.i t.w t.n m l e t.powers.now work.old at }
        ensures { let t = self.now in work.new ≡ put work.old at (words (untransformed t.q t.w t.n l e (numbers m work.old at))) }
    {
        let h = m / 2;
        let k = e / 2;
        if l == 1 {
            butterflies_back(work, at, h, self.powers[self.n - k], self.i, self.q);
            return;
        }
        self.untransform(work, at, h, l - 1, k);
        self.untransform(work, at + 8 * h, h, l - 1, k + self.n);
        butterflies_back(work, at, h, self.powers[self.n - k], self.i, self.q);
    }

    // The product of two slots into the first; the transform of the second is left in it. The products of the values come divided by 2^56
    // and the inverse times n, for which h makes up.
    fn multiply_slots(&self, work: &mut [u8], at: usize, room: usize, h: u64, l: usize)
        requires { let t = self.now in Node t.q t.i t.w t.n t.n l t.n t.powers.now work.old at
            × Node t.q t.i t.w t.n t.n l t.n t.powers.now work.old room × (at + 8 * t.n ≤ room)
            × Root t.q t.n t.w × (h ≡ 2 ^ (112 - l) % t.q) × (l ≤ 11) }
        ensures { let t = self.now in work.new ≡ put (store t.q t.n work.old at (mul t.q t.n (slot work.old at)
            (slot work.old room))) room (words (transformed t.q t.w t.n l t.n (numbers t.n work.old room))) }
    {
        let n = self.n;
        self.transform(work, at, n, l, n);
        self.transform(work, room, n, l, n);
        pointwise(work, at, room, n, self.i, self.q);
        self.untransform(work, at, n, l, n);
        scaled(work, at, h, n, self.i, self.q);
    }
}

// Multiplies a slot by a lent polynomial modulo X^n + 1, by a root w. The room has the length of a slot and lies behind the slot; it is
// zero afterwards.
pub fn multiply(work: &mut [u8], at: usize, room: usize, a: &[u8], n: usize, w: u64, q: u64)
    requires transformable { Transformable q n w × (at + 8 * n ≤ room) × (room + 8 * n ≤ length work.old) × (8 * n ≤ length a.now) }
    requires below { Below q n (slot work.old at) × Below q n (poly a.now) }
    ensures { work.new ≡ put (store q n work.old at (mul q n (slot work.old at)
        (poly a.now))) room (zeros (8 * n)) }
{
    let mut p = [0u64; 2057];
    let i = montgomery::opposite(q);
    let l = exponent(n);
    let h = montgomery::power_of_two(112 - l, q);
    powers(&mut p, n, w, i, q);
    codec::copy(work, room, &a[..8 * n]);
    let table = Table {
        powers: &p,
        n,
        w,
        i,
        q,
    };
    table.multiply_slots(work, at, room, h, l);
    codec::wipe(&mut work[room..room + 8 * n]);
}
