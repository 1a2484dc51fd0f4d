// The calls that multiply two lent polynomials (document 02, L2): by transforms with a lent root, and by the plain method.
ghost use Rattle.scheme.specs.Orders.{product_order, multiply_order, product_of};
ghost use Rattle.jackdawnail.specs.Answers.{CallReplied};

// Writes x y modulo X^N + 1 and q, by transforms with a root: it is below q and root^N is -1 modulo q, or the call is refused 37.
#[unsafe(no_mangle)]
pub extern "C" fn jdn_multiply(
    sheet: &[u8],
    x: &[u8],
    y: &[u8],
    root: u64,
    product: &mut [u8],
    scratch: &mut [u8],
) -> u64
    ensures { CallReplied (multiply_order sheet.now x.now y.now root product.old scratch.old)
        (product_of sheet.now x.now y.now) result product.old product.new scratch.old scratch.new }
{
    match sheet::read(sheet) {
        Ok(k) => {
            let reply = scheme_products::multiply(k, x, y, root, product, scratch);
            codec::pack(scratch::finish(reply, scratch))
        }
        Err(why) => codec::pack(scratch::finish(Err(why), scratch)),
    }
}

// Writes x y modulo X^N + 1 and q, by the plain method, for callers without a root.
#[unsafe(no_mangle)]
pub extern "C" fn jdn_product(
    sheet: &[u8],
    x: &[u8],
    y: &[u8],
    product: &mut [u8],
    scratch: &mut [u8],
) -> u64
    ensures { CallReplied (product_order sheet.now x.now y.now product.old scratch.old)
        (product_of sheet.now x.now y.now) result product.old product.new scratch.old scratch.new }
{
    match sheet::read(sheet) {
        Ok(k) => {
            let reply = scheme_products::product(k, x, y, product, scratch);
            codec::pack(scratch::finish(reply, scratch))
        }
        Err(why) => codec::pack(scratch::finish(Err(why), scratch)),
    }
}
