// The digests by which a session holds what it was lent (document 01, "Register and session").
#![tactic(auto)]

pub mod drawing;

ghost use Rattle.std.specs.Prelude.{◌≡◌, ◌+◌, ◌*◌, ◌≤◌, ◌<◌, length};
ghost use Rattle.register.specs.Register.{standing_digests};
ghost use Rattle.session_digests.specs.Digests.{ballot_digests, closing_digest, claim_digest, round_digest};

use hasher::Hasher;

// The closing digest of the standing ones of the first n entries of a register.
pub fn closing_of_register(sheet: &[u8; 32], reg: &[u8], n: usize) -> [u8; 32]
    requires { 40 * n ≤ length reg.now }
    ensures { result ≡ closing_digest sheet.now (standing_digests reg.now n) }
{
    let mut h = Hasher::new().absorbed(sheet);
    for i in 0..n {
        let stands = register::is_standing(reg, i);
        if stands {
            h = h.absorbed(&reg[40 * i + 8..40 * i + 40]);
        }
    }
    h.finish()
}

// The closing digest of m ballots of one length.
pub fn closing_of_ballots(sheet: &[u8; 32], ballots: &[u8], size: usize, m: usize) -> [u8; 32]
    requires { (size * m ≤ length ballots.now) × (size ≤ 65536) × (m ≤ 4096) }
    ensures { result ≡ closing_digest sheet.now (ballot_digests size m ballots.now) }
{
    let mut h = Hasher::new().absorbed(sheet);
    for j in 0..m {
        let digest = sha3::hash(&ballots[size * j..size * j + size]);
        h = h.absorbed(&digest);
    }
    h.finish()
}

// The claim digest.
pub fn claim_digest(closing: &[u8; 32], claims: &[u8]) -> [u8; 32]
    ensures { result ≡ claim_digest closing.now claims.now }
{
    hasher::hash_parts(closing, claims, b"", b"")
}

// The round digest.
pub fn round_digest(
    claim: &[u8; 32],
    round: u16,
    head: &[u8],
    shares0: &[u8],
    shares1: &[u8],
) -> [u8; 32]
    ensures { result ≡ round_digest claim.now round head.now shares0.now shares1.now }
{
    let mut lead = [0u8; 34];
    codec::copy(&mut lead, 0, claim);
    codec::write16(&mut lead, 32, round);
    hasher::hash_parts(&lead, head, shares0, shares1)
}
