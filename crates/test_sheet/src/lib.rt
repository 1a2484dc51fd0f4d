// A call for tests: the five polynomials of a sheet, in 40N bytes.
#![tactic(auto)]

ghost use Rattle.std.specs.Prelude.{◌≡◌};
ghost use Rattle.codec.specs.Refusal.{as_reply};
ghost use Rattle.codec.specs.Reply.{packed};
ghost use Rattle.test_sheet.specs.Polynomials.{sheet_polynomials_reply, sheet_polynomials_out};

use codec::{Refusal, Reply};

// Reads a sheet, and writes its polynomials into 40N lent bytes.
pub fn polynomials(text: &[u8], out: &mut [u8]) -> Reply
    ensures { (as_reply result ≡ sheet_polynomials_reply text.now out.old) × (out.new ≡ sheet_polynomials_out text.now out.old) }
{
    let mut buffer = [0u8; 81920];
    let k = sheet::load(text, &mut buffer)?;
    let m = 40 * (k.ring as usize);
    if out.len() != m {
        return Err(Refusal::WrongLength);
    }
    codec::copy(out, 0, &buffer[..m]);
    Ok(())
}

// `polynomials` over the C boundary, for tests.
#[unsafe(no_mangle)]
pub extern "C" fn sheet_polynomials(text: &[u8], out: &mut [u8]) -> u64
    ensures { (result ≡ packed (sheet_polynomials_reply text.now out.old))
        × (out.new ≡ sheet_polynomials_out text.now out.old) }
{
    codec::pack(polynomials(text, out))
}
