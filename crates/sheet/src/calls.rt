// The sheet as a call: N, D, B and L in 32 bytes.
ghost use Rattle.std.specs.Prelude.{◌≡◌, false, length};
ghost use Rattle.codec.specs.Refusal.{as_reply};
ghost use Rattle.sheet_numbers.specs.Rules.{outside};
ghost use Rattle.sheet.specs.Calls.{description, describe_reply, describe_out};

use codec::{Refusal, Reply};
use sheet_numbers::Numbers;

// Writes N, D, B and L.
fn write_description(k: Numbers, out: &mut [u8])
    requires { (outside k ≡ false) × (length out.old ≡ 32) }
    ensures { out.new ≡ description k }
{
    codec::write64(out, 0, k.ring);
    codec::write64(out, 8, sheet_numbers::noise_bound(k));
    codec::write64(out, 16, sheet_numbers::mask_bound(k));
    codec::write64(out, 24, sheet_numbers::unknowns(k.ring));
}

// Reads a sheet, and writes N, D, B and L into 32 lent bytes.
pub fn describe(text: &[u8], out: &mut [u8]) -> Reply
    ensures { (as_reply result ≡ describe_reply text.now out.old) × (out.new ≡ describe_out text.now out.old) }
{
    if out.len() != 32 {
        return Err(Refusal::WrongLength);
    }
    let k = crate::read(text)?;
    write_description(k, out);
    Ok(())
}
