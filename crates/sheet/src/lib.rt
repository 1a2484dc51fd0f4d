// The parameter sheet (document 01, "Sheet"): what is said of a text, and its polynomials.
#![tactic(auto)]

pub mod calls;
mod writer;

ghost use Rattle.std.specs.Prelude.{◌≡◌};
ghost use Rattle.sheet.specs.Internal.{judged, loaded};
ghost use Rattle.sheet.specs.Sheet.{reading, ReadAs};

use codec::Refusal;
use sheet_numbers::{Numbers, outside, unsound};

// The refusals 3, 4 and 5 in their order, by the numbers and by the counts and the largest coefficients of the lists.
fn judge(k: Numbers, counts: [u64; 5], largest: [u64; 5]) -> Result<Numbers, Refusal>
    ensures { ReadAs (judged k counts largest) result }
{
    if outside(k) {
        return Err(Refusal::NumberOutOfRange);
    }
    if unsound(k) {
        return Err(Refusal::SheetUnsound);
    }
    if !sheet_lines::all_are(counts, k.ring) {
        return Err(Refusal::ValueOutOfRange);
    }
    if !sheet_lines::all_below(largest, k.modulus) {
        return Err(Refusal::ValueOutOfRange);
    }
    Ok(k)
}

// Reads a sheet.
pub fn read(text: &[u8]) -> Result<Numbers, Refusal>
    ensures { ReadAs (reading text.now) result }
{
    if text.len() == 0 {
        return Err(Refusal::WrongLength);
    }
    if 262144 < text.len() {
        return Err(Refusal::WrongLength);
    }
    let head = sheet_lines::scan_lines(text, 0, 0);
    if !head.whole {
        return Err(Refusal::SheetForm);
    }
    let tail = sheet_lines::scan_lines(text, head.next, 5);
    let lists_whole = tail.whole;
    if !lists_whole {
        return Err(Refusal::SheetForm);
    }
    if tail.next < text.len() {
        return Err(Refusal::SheetForm);
    }
    let ones = head.counts;
    if !sheet_lines::all_are(ones, 1) {
        return Err(Refusal::SheetForm);
    }
    let v = head.largest;
    let counts = tail.counts;
    let largest = tail.largest;
    let k = Numbers {
        ring: v[0],
        modulus: v[1],
        drown: v[2],
        rounds: v[3],
        repeats: v[4],
    };
    judge(k, counts, largest)
}

// Reads a sheet and puts its polynomials a, b, k1, k2, k3, in 40N bytes, at the head of the lent bytes. A refusal leaves them as they are.
pub fn load(text: &[u8], out: &mut [u8; 81920]) -> Result<Numbers, Refusal>
    ensures { ReadAs (reading text.now) result × (out.new ≡ loaded text.now out.old) }
{
    let k = read(text)?;
    writer::write_lists(text, k.ring, out);
    Ok(k)
}
