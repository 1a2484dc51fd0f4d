// SHA3-256 of FIPS 202 over the proved sponge: the padding, the digest, and both as a call.
#![tactic(auto)]

pub mod sponge;

ghost use Rattle.std.specs.Prelude.{◌≡◌, ◌<◌};
ghost use Rattle.codec.specs.Refusal.{as_reply};
ghost use Rattle.sha3.specs.Absorb.{absorb};
ghost use Rattle.sha3.specs.Sponge.{padding, squeeze, sha3};
ghost use Rattle.sha3.specs.Digest.{digest_reply, digest_out};

use codec::{Refusal, Reply};

// The padding of a message that ends before place `at` of its block.
fn pad(s: [[u64; 5]; 5], at: usize) -> [[u64; 5]; 5]
    requires { at < 136 }
    ensures { result ≡ absorb s at (padding at) }
{
    if at < 135 {
        crate::sponge::permuted(crate::sponge::xor_byte(
            crate::sponge::xor_byte(s, at, 6),
            135,
            128,
        ))
    } else {
        crate::sponge::permuted(crate::sponge::xor_byte(s, 135, 134))
    }
}

// The digest of what was absorbed, which ends before place `at` of its block.
pub fn finish(s: [[u64; 5]; 5], at: usize) -> [u8; 32]
    requires { at < 136 }
    ensures { result ≡ squeeze (absorb s at (padding at)) }
{
    let t = pad(s, at);
    let mut out = [0u8; 32];
    codec::write64(&mut out, 0, t[0][0]);
    codec::write64(&mut out, 8, t[0][1]);
    codec::write64(&mut out, 16, t[0][2]);
    codec::write64(&mut out, 24, t[0][3]);
    out
}

// SHA3-256 of a message.
pub fn hash(m: &[u8]) -> [u8; 32]
    ensures { result ≡ sha3 m.now }
{
    finish(
        crate::sponge::absorb(crate::sponge::start(), 0, m),
        m.len() % 136,
    )
}

// SHA3-256 of a message into a lent slice, which is left as it is where it has not 32 bytes.
#[tactic(auto, unfolding(crate::specs::Digest::digest_reply, crate::specs::Digest::digest_out, codec::specs::Reply::first, codec::specs::Reply::leaves))]
pub fn digest(m: &[u8], out: &mut [u8]) -> Reply
    ensures { (as_reply result ≡ digest_reply out.old) × (out.new ≡ digest_out m.now out.old) }
{
    if out.len() != 32 {
        return Err(Refusal::WrongLength);
    }
    codec::copy(out, 0, &hash(m));
    Ok(())
}
