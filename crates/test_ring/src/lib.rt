// Calls over `modular`, `ring` and the two products for tests and benchmarks outside the proof: plain numbers and byte slices, nothing
// asked of the caller. A refusal is 1 for a slice of wrong length, 5 for a number out of range and 37 for a number that is no root, and
// leaves every byte as it was. A call that writes answers 0 where it is taken; one that answers a number has it above the low byte, as
// 256 * value. Two answer a plain number: `modular_centred`, whose refusal is 2^62, and `ring_count`, which refuses nothing. In C a slice
// is `uint8_t *, size_t`, and `const` where it is lent to be read.
#![tactic(auto)]

ghost use Rattle.std.specs.Prelude.{◌≡◌, ◌+◌, ◌*◌, ◌%◌, ◌≤◌, ◌<◌, ◌^◌, pos, leb, eqb, [], ◌∷◌, ◌++◌, length};
ghost use Rattle.codec.specs.Bytes.{zeros};
ghost use Rattle.codec.specs.Reply.{packed, leaves, first, test};
ghost use Rattle.codec.specs.Refusal.{as_reply};
ghost use Rattle.modular.specs.Modulo.{centre, remainder};
ghost use Rattle.modular.specs.Division.{divide};
ghost use Rattle.ring.specs.Poly.{Below};
ghost use Rattle.ring.specs.Slots.{coefficient_bytes, poly, encode};
ghost use Rattle.ring.specs.Ternary.{ternary, count};
ghost use Rattle.test_ring.specs.Calls.{answer, on_numbers, numbers_reply, divide_reply, on_polynomials, polynomials_reply};
ghost use Rattle.test_ring.specs.Calls.{polynomials_out, ternary_reply, suited, transform_reply, transform_out};

use codec::{Refusal, Reply};

// ---- numbers

fn on_numbers(operation: u64, x: u64, y: u64, q: u64) -> u64
    requires { (x < q) × (y < q) × (q % 2 ≡ 1) × (q < 2 ^ 56) }
    ensures { (result ≡ on_numbers operation x y q) × (result ≤ q) }
{
    match operation {
        0 => modular::add(x, y, q),
        1 => modular::subtract(x, y, q),
        2 => modular::multiply(x, y, q),
        3 => modular::negate(x, q),
        4 => modular::size(x, q),
        _ => modular::residue(x, 2, q),
    }
}

// uint64_t modular_numbers(uint64_t operation, uint64_t x, uint64_t y, uint64_t q);
// 0 x + y, 1 x - y, 2 x * y, 3 -x, 4 the size of the centred x, 5 its remainder by 2; q is odd.
#[unsafe(no_mangle)]
pub extern "C" fn modular_numbers(operation: u64, x: u64, y: u64, q: u64) -> u64
    ensures { result ≡ answer (numbers_reply operation x y q) (on_numbers operation x y q) }
{
    if 5 < operation || 72057594037927936 <= q {
        return 5;
    }
    if q % 2 != 1 {
        return 5;
    }
    if q <= x || q <= y {
        return 5;
    }
    256 * on_numbers(operation, x, y, q)
}

// uint64_t modular_divide(uint64_t x, uint64_t p, uint64_t q): x / p modulo q, for p of 2 to 251 that has no factor in common with q.
#[unsafe(no_mangle)]
pub extern "C" fn modular_divide(x: u64, p: u64, q: u64) -> u64
    ensures { result ≡ answer (divide_reply x p q) (divide q p x) }
{
    if p < 2 || 251 < p || 72057594037927936 <= q || q <= x {
        return 5;
    }
    let m = modular::multiplier(p, q);
    if (1 + q * m) % p != 0 {
        return 5;
    }
    256 * modular::divide(x, p, m, q)
}

// int64_t modular_centred(uint64_t x, uint64_t q): the centred form, or 2^62 where a number is out of range.
#[unsafe(no_mangle)]
pub extern "C" fn modular_centred(x: u64, q: u64) -> i64
    ensures { result ≡ leaves (first (test 5 0 (leb (2 ^ 56) q) ∷ test 5 0 (leb q x) ∷ [])) (centre q x) (pos 4611686018427387904) }
{
    if 72057594037927936 <= q || q <= x {
        return 4611686018427387904;
    }
    modular::centred(x, q)
}

// uint64_t modular_reduce(int64_t e, uint64_t q): the number below q that stands for e.
#[unsafe(no_mangle)]
pub extern "C" fn modular_reduce(e: i64, q: u64) -> u64
    ensures { result ≡ answer (first (test 5 0 (eqb q 0) ∷ test 5 0 (leb (2 ^ 56) q) ∷ [])) (remainder q e) }
{
    if q == 0 || 72057594037927936 <= q {
        return 5;
    }
    256 * modular::reduce(e, q)
}

// ---- ternary bytes

// uint64_t ring_count(const uint8_t *t, size_t length, uint8_t v): how often v stands in t.
#[unsafe(no_mangle)]
pub extern "C" fn ring_count(t: &[u8], v: u8) -> u64
    ensures { result ≡ count v t.now }
{
    ring::count_of(t, v) as u64
}

// uint64_t ring_ternary(uint8_t *work, size_t, const uint8_t *t, size_t, uint64_t q): the polynomial of ternary bytes.
#[unsafe(no_mangle)]
pub extern "C" fn ring_ternary(work: &mut [u8], t: &[u8], q: u64) -> u64
    ensures { (result ≡ packed (ternary_reply q work.old t.now))
        × (work.new ≡ leaves (ternary_reply q work.old t.now) (encode (length t.now) (ternary q t.now)) work.old) }
{
    if q < 2 || 2048 < t.len() {
        return 5;
    }
    if work.len() != 8 * t.len() {
        return 1;
    }
    if !ring::is_ternary(t) {
        return 5;
    }
    ring::load_ternary(work, 0, t, q);
    0
}

// ---- polynomials

// What the call for an operation on two polynomials refuses.
fn judge(operation: u64, work: &[u8], a: &[u8], b: &[u8], n: usize, q: u64) -> Reply
    ensures { as_reply result ≡ polynomials_reply operation n q work.now a.now b.now }
{
    if 3 < operation || 2048 < n || q == 0 || 72057594037927936 <= q {
        return Err(Refusal::ValueOutOfRange);
    }
    if work.len() != 32 * n {
        return Err(Refusal::WrongLength);
    }
    if a.len() != 8 * n {
        return Err(Refusal::WrongLength);
    }
    if b.len() != 8 * n {
        return Err(Refusal::WrongLength);
    }
    if !ring::in_range(a, q) {
        return Err(Refusal::ValueOutOfRange);
    }
    if !ring::in_range(b, q) {
        return Err(Refusal::ValueOutOfRange);
    }
    Ok(())
}

// The result in the first slot, and zeros in the others.
fn compute(operation: u64, work: &mut [u8], a: &[u8], b: &[u8], n: usize, q: u64)
    requires n_bound { (n ≤ 2048) × (0 < q) × (q < 2 ^ 56) × (length work.old ≡ 32 * n) × (length a.now ≡ 8 * n)
        × (length b.now ≡ 8 * n) }
    requires below { Below q n (poly a.now) × Below q n (poly b.now) }
    ensures { work.new ≡ coefficient_bytes q n (on_polynomials operation n q (poly a.now) (poly b.now)) ++ zeros (24 * n) }
{
    codec::wipe(work);
    codec::copy(work, 0, a);
    match operation {
        0 => ring::add(work, 0, b, n, q),
        1 => ring::subtract(work, 0, b, n, q),
        2 => ring_product::multiply(work, 0, 8 * n, b, n, q),
        _ => ring_product::plain(work, 0, 8 * n, b, n, q),
    }
}

// uint64_t ring_polynomials(uint64_t operation, uint8_t *work, size_t, const uint8_t *a, size_t, const uint8_t *b, size_t, size_t n,
// uint64_t q);
// 0 a + b, 1 a - b, 2 a * b modulo X^n + 1, 3 the same by the plain method, into the first 8n of the 32n bytes of work.
#[unsafe(no_mangle)]
pub extern "C" fn ring_polynomials(
    operation: u64,
    work: &mut [u8],
    a: &[u8],
    b: &[u8],
    n: usize,
    q: u64,
) -> u64
    ensures { (result ≡ packed (polynomials_reply operation n q work.old a.now b.now))
        × (work.new ≡ polynomials_out operation n q work.old a.now b.now) }
{
    match judge(operation, work, a, b, n, q) {
        Ok(()) => {
            compute(operation, work, a, b, n, q);
            0
        }
        Err(why) => codec::pack(Err(why)),
    }
}

// ---- the product by transforms

// Whether a ring and a modulus are such that a product may be made by a root.
#[tactic(auto, unfolding(crate::specs::Calls::suited))]
fn suits(n: usize, q: u64) -> bool
    ensures { result ≡ suited n q }
{
    (4..=2048).contains(&n) && 2048 % n == 0 && (3..72057594037927936).contains(&q) && q % 2 == 1
}

// What the call for a product by a root refuses.
fn judge_transform(work: &[u8], a: &[u8], b: &[u8], n: usize, root: u64, q: u64) -> Reply
    ensures { as_reply result ≡ transform_reply n root q work.now a.now b.now }
{
    if !suits(n, q) {
        return Err(Refusal::ValueOutOfRange);
    }
    if work.len() != 16 * n {
        return Err(Refusal::WrongLength);
    }
    if a.len() != 8 * n {
        return Err(Refusal::WrongLength);
    }
    if b.len() != 8 * n {
        return Err(Refusal::WrongLength);
    }
    if !modular::is_root(root, n as u64, q) {
        return Err(Refusal::NoRoot);
    }
    if !scratch::both_in_range(a, b, n, q) {
        return Err(Refusal::ValueOutOfRange);
    }
    Ok(())
}

// uint64_t ring_by_transform(uint8_t *work, size_t, const uint8_t *a, size_t, const uint8_t *b, size_t, size_t n, uint64_t root,
// uint64_t q);
// a * b modulo X^n + 1 by the transform, into the first 8n of the 16n bytes of work, for a power of two n of 4 to 2048 and an odd q.
#[unsafe(no_mangle)]
pub extern "C" fn ring_by_transform(
    work: &mut [u8],
    a: &[u8],
    b: &[u8],
    n: usize,
    root: u64,
    q: u64,
) -> u64
    ensures { (result ≡ packed (transform_reply n root q work.old a.now b.now))
        × (work.new ≡ transform_out n root q work.old a.now b.now) }
{
    match judge_transform(work, a, b, n, root, q) {
        Ok(()) => {
            codec::copy(work, 0, a);
            ring_transform::multiply(work, 0, 8 * n, b, n, root, q);
            0
        }
        Err(why) => codec::pack(Err(why)),
    }
}
