// The lists of a text that is taken, as polynomials in bytes.
ghost use Rattle.std.specs.Prelude.{◌≡◌, [], ◌<◌, length, drop, get_or};
ghost use Rattle.codec.specs.Bytes.{put};
ghost use Rattle.sheet_lines.specs.Form.{list_keys};
ghost use Rattle.sheet_lines.specs.Reader.{fresh, values};
ghost use Rattle.sheet.specs.Internal.{Writes, Ready, Fitting};
ghost use Rattle.sheet.specs.Sheet.{polynomials};

use sheet_lines::{digit_of, scan_lines};

// Puts the numbers from a place of the text up to LF into out, from an index on. Answers where the text goes on.
fn write_values(text: &[u8], at: usize, out: &mut [u8], from: usize) -> usize
    requires { Ready (values [] fresh (drop at text.now)) from out.old }
    ensures { Writes (values [] fresh (drop at text.now)) from out.old (drop result text.now)
        out.new }
{
    let mut value: u64 = 0;
    let mut o = from;
    for i in at..text.len() {
        match digit_of(text[i]) {
            Some(digit) => value = 10 * value + digit,
            None => {
                codec::write64(out, o, value);
                if text[i] == b'\n' {
                    return i + 1;
                }
                value = 0;
                o += 8;
            }
        }
    }
    text.len()
}

// The length of the key of one of the five lists, with its =.
fn key_length(k: usize) -> usize
    requires { k < 5 }
    ensures { result ≡ length (get_or list_keys k []) }
{
    if k < 2 { 2 } else { 3 }
}

// Puts the five lists of a text that is taken, n numbers each, at the head of out.
pub fn write_lists(text: &[u8], n: u64, out: &mut [u8])
    requires { Fitting text.now n out.old }
    ensures { out.new ≡ put out.old 0 (polynomials text.now) }
{
    let head = scan_lines(text, 0, 0);
    let mut at = head.next;
    let mut o = 0;
    for i in 0..5 {
        at = write_values(text, at + key_length(i), out, o);
        o += 8 * (n as usize);
    }
}
