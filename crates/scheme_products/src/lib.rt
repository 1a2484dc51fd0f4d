// The product of two lent polynomials modulo X^N + 1 and q (document 02, L2) once the sheet is taken: the tests of the lent slices, and
// then the work. Scratch is given back zeroed, or as it was where the call is refused: the export zeroes it then, unless 1
// refuses. Both methods write the same bytes.
#![tactic(auto)]

ghost use Rattle.std.specs.Prelude.{◌≡◌, [], ◌∷◌, ◌*◌, ◌≤◌};
ghost use Rattle.codec.specs.Refusal.{as_reply};
ghost use Rattle.scratch.specs.Vocabulary.{same, scratch_length, Usable, Computed};
ghost use Rattle.scheme.specs.Calls.{product_tests, multiply_tests, product_writes};

use codec::{Refusal, Reply};
use scheme::hand_out;
use sheet_numbers::Numbers;

// Whether x, y and their product have the length of a polynomial, and scratch its own.
fn sized(x: usize, y: usize, product: usize, scratch: usize, n: usize) -> bool
    requires { n ≤ 2048 }
    ensures { result ≡ same (x ∷ y ∷ product ∷ scratch ∷ []) (8 * n ∷ 8 * n ∷ 8 * n ∷ scratch_length ∷ []) }
{
    scratch::sized(
        [x, y, product, scratch, 0, 0],
        [8 * n, 8 * n, 8 * n, scratch::SCRATCH, 0, 0],
    )
}

// x y by the plain method.
pub fn product(k: Numbers, x: &[u8], y: &[u8], product: &mut [u8], scratch: &mut [u8]) -> Reply
    requires { Usable k }
    ensures { Computed (product_tests k x.now y.now product.old scratch.old)
        (product_writes k x.now y.now) (as_reply result) product.old product.new scratch.old scratch.new }
{
    let n = k.ring as usize;
    if !sized(x.len(), y.len(), product.len(), scratch.len(), n) {
        return Err(Refusal::WrongLength);
    }
    if !scratch::both_in_range(x, y, n, k.modulus) {
        return Err(Refusal::ValueOutOfRange);
    }
    codec::copy(scratch, 0, x);
    ring_product::plain(scratch, 0, 8 * n, y, n, k.modulus);
    hand_out(product, 0, scratch, n);
    Ok(())
}

// x y by transforms, with a root of X^N + 1.
pub fn multiply(
    k: Numbers,
    x: &[u8],
    y: &[u8],
    root: u64,
    product: &mut [u8],
    scratch: &mut [u8],
) -> Reply
    requires { Usable k }
    ensures { Computed (multiply_tests k x.now y.now root product.old scratch.old)
        (product_writes k x.now y.now) (as_reply result) product.old product.new scratch.old scratch.new }
{
    let n = k.ring as usize;
    if !sized(x.len(), y.len(), product.len(), scratch.len(), n) {
        return Err(Refusal::WrongLength);
    }
    if !modular::is_root(root, k.ring, k.modulus) {
        return Err(Refusal::NoRoot);
    }
    if !scratch::both_in_range(x, y, n, k.modulus) {
        return Err(Refusal::ValueOutOfRange);
    }
    codec::copy(scratch, 0, x);
    ring_transform::multiply(scratch, 0, 8 * n, y, n, root, k.modulus);
    hand_out(product, 0, scratch, n);
    Ok(())
}
