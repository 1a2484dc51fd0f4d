// The search of a root of X^n + 1 modulo q, by which a product may be made. What is found is tested before it is taken, so that nothing
// need be known of q.
ghost use Rattle.std.specs.Prelude.{◌≡◌, true, IfSome};
ghost use Prim.Native.Nat.{◌*◌, ◌%◌, ◌^◌, ◌≤◌, ◌<◌};
ghost use Rattle.ring_transform.specs.Internal.{Transformable};
ghost use Rattle.montgomery.specs.Internal.{Modulus};

// z^e, where `one`, z and the power are held times 2^56.
fn raised(z: u64, e: u64, one: u64, i: u64, q: u64) -> u64
    requires { Modulus q i × (z < q) × (one < q) }
    ensures { result < q }
{
    modular::power_by(|x, y| montgomery::product(x, y, i, q), one, z, e)
}

// g^((q - 1) / 2n), where its n-th power is -1. g and `one` are held times 2^56.
fn tried(g: u64, n: u64, one: u64, i: u64, q: u64) -> Option<u64>
    requires { Modulus q i × (1 < q) × (g < q) × (one < q) × (0 < n) × (n ≤ 2048) }
{
    let z = raised(g, (q - 1) / (2 * n), one, i, q);
    let power = raised(z, n, one, i, q);
    (power == q - one).then(|| montgomery::product(z, 1, i, q))
}

// The first such power, for g from 2 to 65. Where q is prime and 2n divides q - 1, every second g gives one.
fn searched(n: u64, q: u64) -> Option<u64>
    requires { (1 < q) × (q < 2 ^ 56) × (q % 2 ≡ 1) × (0 < n) × (n ≤ 2048) }
{
    if (q - 1) % (2 * n) != 0 {
        return None;
    }
    let i = montgomery::opposite(q);
    let one = montgomery::power_of_two(56, q);
    let mut g = modular::corrected(one + one, q);
    for _ in 0..64 {
        let w = tried(g, n, one, i, q);
        if w.is_some() {
            return w;
        }
        g = modular::corrected(g + one, q);
    }
    None
}

// Whether q and n are such that a product by transforms is faster than the plain one, the search of a root included.
fn pays(n: usize, q: u64) -> bool
    ensures { result ≡ true → (1 < q) × (q % 2 ≡ 1) × (2 ≤ n) × (n ≤ 2048) × ((j : Prim.Native.Nat.ℕ) × (n ≡ 2 ^ j)) }
{
    1 < q && q % 2 == 1 && matches!(n, 256 | 512 | 1024 | 2048)
}

// A root of X^n + 1 by which products modulo q are made, where one is found and the plain product is not the faster.
pub fn root(n: usize, q: u64) -> Option<u64>
    requires { q < 2 ^ 56 }
    ensures { IfSome result (Transformable q n) }
{
    if !pays(n, q) {
        return None;
    }
    let w = searched(n as u64, q)?;
    modular::is_root(w, n as u64, q).then_some(w)
}
