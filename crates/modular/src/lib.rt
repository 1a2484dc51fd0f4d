// Numbers modulo q, for q below 2^56 (document 01, "Ring and scheme"). -x modulo q is (q - 1) * x in contracts.
#![tactic(auto)]

ghost use Rattle.std.specs.Prelude.{◌≡◌, ℕ, ◌+◌, ◌-◌, ◌*◌, ◌%◌, ◌^◌, ◌<◌, ◌≤◌, unsigned_abs};
ghost use Rattle.modular.specs.Modulo.{Same, centre, remainder};
ghost use Rattle.modular.specs.Roots.{is_root};
ghost use Rattle.modular.specs.Division.{multiplier, divide};
ghost use Rattle.modular.specs.Internal.{Coprime, ScaledProducts};

// x modulo q, of an x below 2q. Whether q is subtracted is computed, as a branch on it is mispredicted half the time: x + 2^62 - q is at
// least 2^62 where x is at least q, and only there, so that `over` is 1 there and else 0, and the mask has all bits or none. The division
// by 2^62 is a shift, and a mask is cheaper than a product by 0 or 1 where several numbers are corrected at a time.
pub fn corrected(x: u64, q: u64) -> u64
    requires { (0 < q) × (q < 2 ^ 56) × (x < q + q) }
    ensures { (result ≡ x % q) × (result < q) }
{
    let over = (x + 4611686018427387904 - q) / 4611686018427387904;
    let mask = over.wrapping_neg();
    x - (mask & q)
}

// a + b.
pub fn add(a: u64, b: u64, q: u64) -> u64
    requires { (a < q) × (b < q) × (q < 2 ^ 56) }
    ensures { result ≡ (a + b) % q }
{
    corrected(a + b, q)
}

// a - b.
pub fn subtract(a: u64, b: u64, q: u64) -> u64
    requires { (a < q) × (b < q) × (q < 2 ^ 56) }
    ensures { result ≡ (a + (q - 1) * b) % q }
{
    corrected(a + (q - b), q)
}

// -a.
pub fn negate(a: u64, q: u64) -> u64
    requires { (a < q) × (q < 2 ^ 56) }
    ensures { result ≡ (q - 1) * a % q }
{
    corrected(q - a, q)
}

// x * 2^28, by steps that fit 64 bits.
fn shift(x: u64, q: u64) -> u64
    requires { (x < q) × (q < 2 ^ 56) }
    ensures { (result ≡ x * 268435456 % q) × (result < q) }
{
    let a = x * 256 % q;
    let b = a * 256 % q;
    let c = b * 256 % q;
    c * 16 % q
}

// The number with these four digits to the base 2^28, the least first; a digit may be any 64-bit number.
pub fn from_digits(d0: u64, d1: u64, d2: u64, d3: u64, q: u64) -> u64
    requires { (0 < q) × (q < 2 ^ 56) }
    ensures { result ≡ (d0 + (d1 + (d2 + d3 * 268435456) * 268435456) * 268435456) % q }
{
    let h = (shift(d3 % q, q) + d2 % q) % q;
    let m = (shift(h, q) + d1 % q) % q;
    (shift(m, q) + d0 % q) % q
}

// a * b, by two digits of each.
pub fn multiply(a: u64, b: u64, q: u64) -> u64
    requires { (a < q) × (b < q) × (q < 2 ^ 56) }
    ensures { result ≡ a * b % q }
{
    let a0 = a % 268435456;
    let a1 = a / 268435456;
    let b0 = b % 268435456;
    let b1 = b / 268435456;
    from_digits(a0 * b0, a0 * b1 + a1 * b0, a1 * b1, 0, q)
}

// one * w^e by squaring, where `times` multiplies numbers below some q, and every product comes out times some c: r * (b * c)^left is
// one * (w * c)^e modulo q all the time.
pub fn power_by<F: Fn(u64, u64) -> u64>(times: F, one: u64, w: u64, e: u64) -> u64
    requires { (q : ℕ) × (c : ℕ) × (one < q) × (w < q) × ScaledProducts (F.pre times) (F.post times) q c }
    ensures { (q c : ℕ) → one < q → w < q → ScaledProducts (F.pre times) (F.post times) q c
        → (result < q) × Same q result (one * (w * c) ^ e) }
{
    let mut r = one;
    let mut b = w;
    let mut left = e;
    while 0 < left {
        if left % 2 == 1 {
            r = times(r, b);
        }
        b = times(b, b);
        left /= 2;
    }
    r
}

// w^e.
pub fn power(w: u64, e: u64, q: u64) -> u64
    requires { (1 < q) × (w < q) × (q < 2 ^ 56) }
    ensures { (result ≡ w ^ e % q) × (result < q) }
{
    power_by(|x, y| multiply(x, y, q), 1, w, e)
}

// Whether w is below q and w^n is -1 modulo q.
pub fn is_root(w: u64, n: u64, q: u64) -> bool
    requires { (1 < q) × (q < 2 ^ 56) }
    ensures { result ≡ is_root q n w }
{
    if q <= w {
        return false;
    }
    power(w, n, q) == q - 1
}

// The centred form.
pub fn centred(x: u64, q: u64) -> i64
    requires { (x < q) × (q < 2 ^ 56) }
    ensures { result ≡ centre q x }
{
    if x <= (q - 1) / 2 {
        x as i64
    } else {
        (x as i64) - (q as i64)
    }
}

// The largest k below p for which 1 + q k is a multiple of p, or 0: by it `divide` finds the multiple of q to add.
pub fn multiplier(p: u64, q: u64) -> u64
    requires { (0 < p) × (p ≤ 251) × (q < 2 ^ 56) }
    ensures { (result ≡ multiplier q p p) × (result < p) }
{
    for k in (0..p).rev() {
        if (1 + q * k) % p == 0 {
            return k;
        }
    }
    0
}

// x / p modulo q, for the multiplier m of p: x + q (x m modulo p) is a multiple of p.
pub fn divide(x: u64, p: u64, m: u64, q: u64) -> u64
    requires { (x < q) × (0 < p) × (p ≤ 251) × (q < 2 ^ 56) × Coprime p q × (m ≡ multiplier q p p) × (m < p) }
    ensures { (result ≡ divide q p x) × (result < q) }
{
    let t = (x % p) * m % p;
    (x + q * t) / p
}

// The size of a signed number.
pub fn magnitude(e: i64) -> u64
    ensures { result ≡ unsigned_abs e }
{
    e.unsigned_abs()
}

// The number below q that stands for a signed number.
pub fn reduce(e: i64, q: u64) -> u64
    requires { 0 < q }
    ensures { result ≡ remainder q e }
{
    let m = magnitude(e) % q;
    if e >= 0 { m } else { (q - m) % q }
}

// The size of the centred form.
pub fn size(x: u64, q: u64) -> u64
    requires { (x < q) × (q < 2 ^ 56) }
    ensures { result ≡ unsigned_abs (centre q x) }
{
    magnitude(centred(x, q))
}

// The remainder by p of the centred form, never negative.
pub fn residue(x: u64, p: u64, q: u64) -> u64
    requires { (x < q) × (q < 2 ^ 56) × (0 < p) }
    ensures { result ≡ remainder p (centre q x) }
{
    reduce(centred(x, q), p)
}
