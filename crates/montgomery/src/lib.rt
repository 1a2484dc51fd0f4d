// Products modulo an odd q below 2^56 with no division: Montgomery's reduction, in two digits of 28 bits. The product of two numbers comes
// out divided by 2^56, so that a factor that is used often is held times 2^56.
#![tactic(auto)]

ghost use Rattle.std.specs.Prelude.{◌≡◌, ◌+◌, ◌*◌, ◌%◌, ◌^◌, ◌≤◌, ◌<◌};
ghost use Rattle.montgomery.specs.Internal.{radix_inverse, Modulus};

// The product of two digits of 28 bits. The remainders change nothing: they tell the compiler that both factors are short, so that it
// multiplies several at a time.
fn digits(a: u64, b: u64) -> u64
    requires { (a < 268435456) × (b < 268435456) }
    ensures { (result ≡ a * b) × (result ≤ 72057593501057025) }
{
    (a % 268435456) * (b % 268435456)
}

// x * y / 2^56 modulo q, where i is -1 / q modulo 2^28: a multiple of q is added that makes x * y a multiple of 2^56, a digit at a time.
pub fn product(x: u64, y: u64, i: u64, q: u64) -> u64
    requires { Modulus q i × (x < q) × (y < q) }
    ensures { (result ≡ y * radix_inverse q * x % q) × (result < q) }
{
    let x0 = x % 268435456;
    let x1 = x / 268435456;
    let y0 = y % 268435456;
    let y1 = y / 268435456;
    let q0 = q % 268435456;
    let q1 = q / 268435456;
    let t0 = digits(x0, y0);
    let m0 = digits(t0 % 268435456, i) % 268435456;
    let u0 = (t0 + digits(m0, q0)) / 268435456;
    let t1 = digits(x0, y1) + digits(x1, y0) + digits(m0, q1) + u0;
    let m1 = digits(t1 % 268435456, i) % 268435456;
    let u1 = (t1 + digits(m1, q0)) / 268435456;
    modular::corrected(digits(x1, y1) + digits(m1, q1) + u1, q)
}

// From -1 / a modulo p to -1 / a modulo 2p.
fn lifted(a: u64, x: u64, p: u64) -> u64
    requires { (a < 268435456) × (a % 2 ≡ 1) × (0 < p) × (p ≤ 268435456) × (x < p) × ((a * x + 1) % p ≡ 0) }
    ensures { (result < p * 2) × ((a * result + 1) % (p * 2) ≡ 0) }
{
    if (digits(a, x) + 1) / p % 2 == 1 {
        x + p
    } else {
        x
    }
}

// -1 / q modulo 2^28, bit by bit.
pub fn opposite(q: u64) -> u64
    requires { (q < 2 ^ 56) × (q % 2 ≡ 1) }
    ensures { Modulus q result }
{
    let q0 = q % 268435456;
    let mut x: u64 = 0;
    for bit in 0..28u32 {
        x = lifted(q0, x, 1 << bit);
    }
    x
}

// 2^k modulo q.
pub fn power_of_two(k: usize, q: u64) -> u64
    requires { (1 < q) × (q < 2 ^ 56) × (k < 4294967296) }
    ensures { (result ≡ 2 ^ k % q) × (result < q) }
{
    let mut r: u64 = 1;
    for _ in 0..k {
        r = modular::corrected(r + r, q);
    }
    r
}
