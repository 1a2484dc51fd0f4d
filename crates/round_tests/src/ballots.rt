// The tests of the ballots in a check: 12, then 13, the lowest ballot first.
ghost use Rattle.std.specs.Prelude.{◌≡◌, ◌+◌, ◌*◌, ◌≤◌, ◌<◌, length};
ghost use Rattle.round.specs.Vocabulary.{part, poly, slot, plain, mask_bound_of, Usable};
ghost use Rattle.round.specs.Vocabulary.{scratch_length, Polynomial, Judged, Tried};
ghost use Rattle.round.specs.Vocabulary.{of_side, votes_tests, Batch, SharesLent};
ghost use Rattle.codec.specs.Refusal.{as_reply};
ghost use Rattle.round_tests.specs.Internal.{vote_tests, BallotAt};

use crate::opened::opened_share;
use crate::votes::test_ballot;
use codec::Reply;
use sheet_numbers::Numbers;

// One ballot where it stands: the ballot, its claim and its shares at places of their slices, and its share of the opened side.
fn test_at<'a>(
    work: &mut [u8],
    k: Numbers,
    s: &[u8],
    ballots: &[u8],
    at: usize,
    claims: &[u8],
    claim: usize,
    side: u64,
    shares0: &'a [u8],
    shares1: &'a [u8],
    share: usize,
    place: u32,
) -> Reply
    requires { Polynomial k.ring k.modulus s.now × Usable k × (length work.old ≡ scratch_length)
        × BallotAt k.modulus k.ring ballots.now at claims.now claim side shares0.now shares1.now share place }
    ensures { Tried (vote_tests k.modulus k.ring (plain k) (mask_bound_of k) place (poly s.now)
        (slot ballots.now (at + 4)) (slot (of_side side shares0.now shares1.now) share) (part claims.now claim k.ring)
        (slot ballots.now (at + 4 + 8 * k.ring)) (slot shares0.now share) (slot shares1.now share))
        (as_reply result) work.old work.new }
{
    let n = k.ring as usize;
    let end = share + 8 * n;
    let opened = opened_share(side, n, shares0, shares1, place as usize);
    test_ballot(
        work,
        k,
        s,
        &ballots[at + 4..at + 4 + 8 * n],
        &ballots[at + 4 + 8 * n..at + 4 + 16 * n],
        &claims[claim..claim + n],
        &shares0[share..end],
        &shares1[share..end],
        opened,
        place,
    )
}

// Every ballot, in order, with the shares of the opened side, up to the first that is refused.
fn try_ballots<'a>(
    work: &mut [u8],
    k: Numbers,
    s: &[u8],
    ballots: &[u8],
    claims: &[u8],
    side: u64,
    shares0: &'a [u8],
    shares1: &'a [u8],
    count: usize,
) -> Reply
    requires { Polynomial k.ring k.modulus s.now × Usable k × (length work.old ≡ scratch_length) × (count ≤ 4096)
        × (side < 2) × Batch k.modulus k.ring count ballots.now claims.now × SharesLent k.modulus k.ring count shares0.now
        × SharesLent k.modulus k.ring count shares1.now }
    ensures { Tried (votes_tests k.modulus k.ring (plain k) (mask_bound_of k) count (poly s.now) ballots.now
        claims.now shares0.now shares1.now (of_side side shares0.now shares1.now)) (as_reply result) work.old work.new }
{
    let n = k.ring as usize;
    for j in 0..count {
        test_at(
            work,
            k,
            s,
            ballots,
            (4 + 16 * n) * j,
            claims,
            n * j,
            side,
            shares0,
            shares1,
            8 * n * j,
            j as u32,
        )?;
    }
    Ok(())
}

// The same, and scratch zeroed.
pub fn test_ballots<'a>(
    work: &mut [u8],
    k: Numbers,
    s: &[u8],
    ballots: &[u8],
    claims: &[u8],
    side: u64,
    shares0: &'a [u8],
    shares1: &'a [u8],
    count: usize,
) -> Reply
    requires { Polynomial k.ring k.modulus s.now × Usable k × (length work.old ≡ scratch_length) × (count ≤ 4096)
        × (side < 2) × Batch k.modulus k.ring count ballots.now claims.now × SharesLent k.modulus k.ring count shares0.now
        × SharesLent k.modulus k.ring count shares1.now }
    ensures { Judged (votes_tests k.modulus k.ring (plain k) (mask_bound_of k) count (poly s.now) ballots.now
        claims.now shares0.now shares1.now (of_side side shares0.now shares1.now)) (as_reply result) work.old work.new }
{
    let reply = try_ballots(work, k, s, ballots, claims, side, shares0, shares1, count);
    codec::wipe(work);
    reply
}
