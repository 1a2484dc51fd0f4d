// Writes SHA3-256 of the published example messages in hexadecimal, a line each; the file `stdout` has the published digests.
#![tactic(auto)]

use hasher::Hasher;
use std::io;

const DIGITS: [u8; 16] = *b"0123456789abcdef";

// Writes a digest as a line, in one piece.
fn line(rt: &impl Print, digest: [u8; 32]) -> io::Result<()> {
    let mut text = [b'\n'; 65];
    for i in 0..32 {
        text[2 * i] = DIGITS[usize::from(digest[i] / 16)];
        text[2 * i + 1] = DIGITS[usize::from(digest[i] % 16)];
    }
    rt.write_all(&text)
}

// A message of n times the same bytes, taken in part by part.
fn repeated(part: &[u8], n: usize) -> [u8; 32] {
    let mut h = Hasher::new();
    for _ in 0..n {
        h.update(part);
    }
    h.finish()
}

fn main(rt: HostRuntime) -> io::Result<()> {
    line(&rt, sha3::hash(b""))?;
    line(&rt, sha3::hash(b"abc"))?;
    line(
        &rt,
        sha3::hash(b"abcdbcdecdefdefgefghfghighijhijkijkljklmklmnlmnomnopnopq"),
    )?;
    line(
        &rt,
        sha3::hash(
            b"abcdefghbcdefghicdefghijdefghijkefghijklfghijklmghijklmnhijklmnoijklmnopjklmnopqklmnopqrlmnopqrsmnopqrstnopqrstu",
        ),
    )?;
    line(&rt, sha3::hash(&[0xA3u8; 200]))?;
    line(&rt, repeated(&[b'a'; 1000], 1000))
}
