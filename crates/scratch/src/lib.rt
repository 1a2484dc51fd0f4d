// What the calls that are lent the sheet have in common: scratch and how it is zeroized, the tests of lengths and ranges, and a polynomial
// of scratch written out.
#![tactic(auto)]

ghost use Rattle.std.specs.Prelude.{◌≡◌, eqb, ◌&&◌, ◌||◌, [], ◌∷◌, ◌+◌, ◌*◌, ◌≤◌, length};
ghost use Rattle.codec.specs.Bytes.{part, put, same};
ghost use Rattle.codec.specs.Refusal.{reply_by};
ghost use Rattle.scratch.specs.Call.{bytes_below, coefficients_below, zeroized};

use codec::Refuses;

// The length of scratch, for every call that is lent one: 64 slots of 16,384 bytes, each with room for a polynomial of 2048 coefficients.
pub const SCRATCH: usize = 1048576;

// Whether lengths are those that are wanted. A call with fewer slices fills up with zeros.
pub fn sized(lengths: [usize; 6], wanted: [usize; 6]) -> bool
    ensures { result ≡ same lengths wanted }
{
    lengths == wanted
}

// ---- tests of two slices: a line each; one over a list of slices would be a loop

// Whether all bytes of two slices are ternary.
pub fn both_ternary(s: &[u8], e: &[u8]) -> bool
    ensures { result ≡ bytes_below 3 (s.now ∷ e.now ∷ []) }
{
    ring::is_ternary(s) && ring::is_ternary(e)
}

// Whether all coefficients of two lent polynomials are below q.
pub fn both_in_range(x: &[u8], y: &[u8], n: usize, q: u64) -> bool
    requires { (length x.now ≡ 8 * n) × (length y.now ≡ 8 * n) }
    ensures { result ≡ coefficients_below q n (x.now ∷ y.now ∷ []) }
{
    ring::in_range(x, q) && ring::in_range(y, q)
}

// Whether all bytes of one slice are ternary, and all coefficients of another, n of them, below q.
pub fn ternary_and_in_range(s: &[u8], x: &[u8], n: usize, q: u64) -> bool
    requires { length x.now ≡ 8 * n }
    ensures { result ≡ bytes_below 3 (s.now ∷ []) && coefficients_below q n (x.now ∷ []) }
{
    ring::is_ternary(s) && ring::in_range(x, q)
}

// Whether a refusal leaves scratch as it is: 1 and 31 do.
fn keeps_scratch<E: Refuses>(why: E) -> bool
    ensures { result ≡ (eqb (E.number why) 1 || eqb (E.number why) 31) }
{
    let number = why.number();
    number == 1 || number == 31
}

// Zeroes scratch as a call ends, unless the call was refused 1 or 31.
pub fn zeroize<E: Refuses>(reply: Result<(), E>, scratch: &mut [u8])
    ensures { scratch.new ≡ zeroized (reply_by E.number E.place reply) scratch.old }
{
    match reply {
        Ok(()) => codec::wipe(scratch),
        Err(why) => {
            if !keeps_scratch(why) {
                codec::wipe(scratch);
            }
        }
    }
}

// Ends a call: scratch is zeroed by its reply, and the reply handed on.
pub fn finish<E: Refuses>(reply: Result<(), E>, scratch: &mut [u8]) -> Result<(), E>
    ensures { (result ≡ reply) × (scratch.new ≡ zeroized (reply_by E.number E.place reply) scratch.old) }
{
    zeroize(reply, scratch);
    reply
}

// Writes the polynomial that stands at a place of scratch out.
pub fn write_out(out: &mut [u8], at: usize, scratch: &[u8], from: usize, n: usize)
    requires { (at + 8 * n ≤ length out.old) × (from + 8 * n ≤ length scratch.now) }
    ensures { out.new ≡ put out.old at (part scratch.now from (8 * n)) }
{
    codec::copy(out, at, &scratch[from..from + 8 * n]);
}
