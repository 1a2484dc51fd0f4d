// The sheet program (document 01, "Sheet"): reads a sheet from standard input and prints the verdict, and of a sheet that is taken N, D,
// B and L.
#![tactic(auto)]

ghost use Rattle.std.specs.Prelude.{◌≡◌, false, ◌+◌, ◌≤◌, length, take};
ghost use Rattle.io.specs.Counts.{IsPrefixLen};
ghost use Rattle.sheet_numbers.specs.Rules.{outside};
ghost use Rattle.sheet.specs.Sheet.{Taken};
ghost use Rattle.sheet_program.specs.Print.{printed_line, printed_by, printed, Puts};

use sheet_numbers::Numbers;
use std::io::Read;

// The longest text that is read as a sheet.
const LONGEST: usize = 65536;

// Puts a printed line into out at a place: a key with its =, and a number. Answers the place after it.
fn put_line(out: &mut [u8], at: usize, key: &[u8], n: u64) -> usize
    requires { at + (length key.now + 21) ≤ length out.old }
    ensures { Puts out.old at (printed_line key.now n) result out.new
        × (result ≤ at + (length key.now + 21)) }
{
    let mut digits = [0u8; 20];
    let k = io::decimal(n, &mut digits);
    codec::copy(out, at, key);
    codec::copy(out, at + key.len(), &digits[..k]);
    codec::write8(out, at + key.len() + k, 10);
    at + key.len() + k + 1
}

// The lines of a sheet that is taken, at the head of out.
fn show(k: Numbers, out: &mut [u8]) -> usize
    requires { (outside k ≡ false) × (length out.old ≡ 160) }
    ensures { Puts out.old 0 (printed_by (Taken k)) result out.new }
{
    let a1 = put_line(out, 0, b"verdict=", 0);
    let a2 = put_line(out, a1, b"ring=", k.ring);
    let a3 = put_line(out, a2, b"noise=", sheet_numbers::noise_bound(k));
    let a4 = put_line(out, a3, b"mask=", sheet_numbers::mask_bound(k));
    put_line(out, a4, b"unknowns=", sheet_numbers::unknowns(k.ring))
}

// Puts what the program prints at the head of out, and answers how many bytes that is.
fn report(text: &[u8], out: &mut [u8; 160]) -> usize
    ensures { IsPrefixLen result out.new × (take result out.new ≡ printed text.now) }
{
    if LONGEST < text.len() {
        return put_line(out, 0, b"verdict=", 1);
    }
    match sheet::read(text) {
        Ok(k) => show(k, out),
        Err(why) => put_line(out, 0, b"verdict=", u64::from(why.number())),
    }
}

// Of a text that is too long no more is read than shows that it is.
fn main(rt: HostRuntime) -> std::io::Result<()> {
    let mut text = Vec::new(rt.alloc());
    rt.stdin().take(LONGEST as u64 + 1).read_to_end(&mut text)?;
    let mut out = [0u8; 160];
    let m = report(&text, &mut out);
    rt.write_all(&out[..m])
}
