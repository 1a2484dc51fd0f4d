// Lines of a sheet's text: what they hold, without keeping their numbers.
#![tactic(auto)]

ghost use Rattle.std.specs.Prelude.{◌≡◌, ◌+◌, ◌≤◌, ◌<◌, [], ◌++◌, MatchOption, eqb, drop, take, get_or};
ghost use Rattle.sheet_lines.specs.Form.{number_keys, list_keys};
ghost use Rattle.codec.specs.Lists.{every, all_below};
ghost use Rattle.sheet_lines.specs.Reader.{digit, fresh, values, line};
ghost use Rattle.sheet_lines.specs.Internal.{longer, summed, scanned, Scanned};

// A line: how many numbers it has, the largest, and where the text goes on.
#[derive(Drop)]
struct Line {
    count: u64,
    largest: u64,
    next: usize,
}

// Five lines: whether they are all there, and for each how many numbers it has and the largest; and where the text goes on. Where one
// is not there, both are 0 for it and those after it, and the text goes on where it should stand.
// The flag stands beside the values, and is no Option of them: `Scanned` (`counts`, `tops`, `rest`) says what they are where it is false.
#[derive(Drop)]
pub struct Lines {
    pub whole: bool,
    pub counts: [u64; 5],
    pub largest: [u64; 5],
    pub next: usize,
}

// The value of a digit; none for any other byte.
#[tactic(auto, unfolding(crate::specs::Reader::digit))]
pub fn digit_of(c: u8) -> Option<u64>
    ensures { MatchOption result (digit c ≡ 10) (λ d. (d ≡ digit c) × (d < 10)) }
{
    if c.is_ascii_digit() {
        Some(u64::from(c - b'0'))
    } else {
        None
    }
}

// A number's value with one more digit; none after a 0 (no leading zero), and none after 17 digits.
fn with_digit(value: Option<u64>, digit: u64) -> Option<u64>
    requires { digit < 10 }
    ensures { result ≡ longer value digit }
{
    let Some(v) = value else {
        return Some(digit);
    };
    if v == 0 || 10000000000000000 <= v {
        return None;
    }
    Some(10 * v + digit)
}

// The numbers from a place of the text up to LF. It is a call of its own, since it is slower inside the loop over the keys.
#[inline(never)]
fn scan_values(text: &[u8], at: usize) -> Option<Line>
    ensures { scanned text.now result ≡ summed (values [] fresh (drop at text.now)) }
{
    let mut value = None;
    let mut count: u64 = 0;
    let mut largest: u64 = 0;
    for i in at..text.len() {
        let c = text[i];
        match digit_of(c) {
            Some(digit) => value = Some(with_digit(value, digit)?),
            None => {
                count += 1;
                largest = largest.max(value?);
                if c == b'\n' {
                    return Some(Line {
                        count,
                        largest,
                        next: i + 1,
                    });
                }
                if c != b',' {
                    return None;
                }
                value = None;
            }
        }
    }
    None
}

// A line: the key, then its numbers.
fn scan_line(text: &[u8], at: usize, key: &[u8]) -> Option<Line>
    ensures { scanned text.now result ≡ summed (line key.now (drop at text.now)) }
{
    if text.get(at..)?.starts_with(key) {
        scan_values(text, at + key.len())
    } else {
        None
    }
}

// The ten keys, each with its =.
const KEYS: [&[u8]; 10] = [
    b"ring=",
    b"modulus=",
    b"drown=",
    b"rounds=",
    b"repeats=",
    b"a=",
    b"b=",
    b"k1=",
    b"k2=",
    b"k3=",
];

// The lines of five keys, from one on.
pub fn scan_lines(text: &[u8], at: usize, from: usize) -> Lines
    requires { from + 5 ≤ 10 }
    ensures { Scanned (take 5 (drop from (number_keys ++ list_keys))) (drop at text.now) text.now result }
{
    let mut counts = [0u64; 5];
    let mut largest = [0u64; 5];
    let mut next = at;
    for i in 0..5 {
        let Some(line) = scan_line(text, next, KEYS[from + i]) else {
            return Lines {
                whole: false,
                counts,
                largest,
                next,
            };
        };
        counts[i] = line.count;
        largest[i] = line.largest;
        next = line.next;
    }
    Lines {
        whole: true,
        counts,
        largest,
        next,
    }
}

// Whether each of the numbers is v.
pub fn all_are(xs: [u64; 5], v: u64) -> bool
    ensures { result ≡ every (λ x. eqb x v) xs }
{
    xs.iter().all(|x| *x == v)
}

// Whether each of the numbers is below v.
pub fn all_below(xs: [u64; 5], v: u64) -> bool
    ensures { result ≡ all_below v xs }
{
    xs.iter().all(|x| *x < v)
}
