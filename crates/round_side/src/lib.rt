// The tests of the parts of a round from lent bytes: 5 for each part, 6, 7 and 8 for an opening, 12 and 13 for the ballots by it.
#![tactic(auto)]

ghost use Rattle.std.specs.Prelude.{◌≡◌, ◌&&◌, ◌*◌, ◌≤◌, ℕ, ◌+◌, ◌<◌, length};
ghost use Rattle.round.specs.Vocabulary.{plain, answer_length, in_range, ballot_length, answers_length, is_challenge, zeros, slot};
ghost use Rattle.round.specs.Vocabulary.{mask_bound_of, Usable, scratch_length, Judged, Loaded};
ghost use Rattle.round.specs.Vocabulary.{opening_of, of_side, votes_tests, parameters};
ghost use Rattle.round.specs.Vocabulary.{Batch, SharesLent};
ghost use Rattle.round.specs.Round.{opening_ranged, head_ranged, answers_ranged, opens_key, opens_pairs, half_tests};
ghost use Rattle.round_side.specs.Internal.{message_ranged, Opened, Head};
ghost use Rattle.codec.specs.Refusal.{as_reply};
ghost use Rattle.round.specs.Round as round;

use codec::{Refusal, Reply};
use sheet_numbers::Numbers;

// ---- Refusal 5: whether coefficients, claims, ternary bytes and challenges are in range.

// Whether b0, b1 and the committed pairs, with which the head of a first message begins, are below q.
fn head_ranged(k: Numbers, head: &[u8]) -> bool
    requires { (k.ring ≤ 2048) × (80 * k.ring ≤ length head.now) }
    ensures { result ≡ head_ranged k.modulus k.ring head.now }
{
    let n = k.ring as usize;
    ring::in_range(&head[0..80 * n], k.modulus)
}

// Whether the two polynomials of an opening are below q, and the bytes behind them ternary.
pub fn opening_ranged(k: Numbers, opening: &[u8]) -> bool
    requires { (k.ring ≤ 2048) × (length opening.now ≡ 22 * k.ring) }
    ensures { result ≡ opening_ranged k.modulus k.ring opening.now }
{
    let n = k.ring as usize;
    ring::in_range(&opening[0..16 * n], k.modulus) && ring::is_ternary(&opening[16 * n..22 * n])
}

// Whether a challenge is 1, 2 or 3, and the numbers of its answer are in range.
fn challenge_ranged(k: Numbers, challenge: u8, answer: &[u8]) -> bool
    requires { (k.ring ≤ 2048) × (length answer.now ≡ answer_length k.ring challenge) }
    ensures { result ≡ (is_challenge challenge && in_range k.modulus k.ring challenge answer.now) }
{
    matches!(challenge, 1..=3)
        && stern_answers::layout::answer_ranged(challenge, answer, k.ring as usize, k.modulus)
}

// Whether every challenge and every answer, end to end, is in range.
pub fn answers_ranged(k: Numbers, challenges: &[u8], answers: &[u8]) -> bool
    requires { (k.ring ≤ 2048) × (k.repeats ≤ 256) × (length challenges.now ≡ k.repeats)
        × (length answers.now ≡ answers_length k.ring challenges.now) }
    ensures { result ≡ answers_ranged k.modulus k.ring k.repeats challenges.now answers.now }
{
    let n = k.ring as usize;
    let mut at = 0;
    for challenge in challenges {
        let end = at + stern_answers::layout::answer_length(n, *challenge);
        if !challenge_ranged(k, *challenge, &answers[at..end]) {
            return false;
        }
        at = end;
    }
    true
}

// Whether ballots, claims and a first message are in range.
#[tactic(auto, unfolding(vector::specs::Vector::vector))]
pub fn message_ranged(
    k: Numbers,
    ballots: &[u8],
    claims: &[u8],
    head: &[u8],
    shares0: &[u8],
    shares1: &[u8],
    count: usize,
) -> bool
    requires { (k.ring ≤ 2048) × (count ≤ 4096) × (length ballots.now ≡ ballot_length k.ring * count)
        × (80 * k.ring ≤ length head.now) }
    ensures { result ≡ message_ranged k.modulus k.ring (plain k) count ballots.now claims.now head.now shares0.now
        shares1.now }
{
    let q = k.modulus;
    round_tests::ranges::ballots_in_range(ballots, count, k.ring as usize, q)
        && bgv::is_message(claims, sheet_numbers::plain(k))
        && head_ranged(k, head)
        && ring::in_range(shares0, q)
        && ring::in_range(shares1, q)
}

// ---- The tests of an opening: 6, 7 and 8, and by ballot 12 and 13.

// Whether b0 and b1 of a first message add to b.
pub fn splits(work: &mut [u8], k: Numbers, public: &[u8], head: &[u8]) -> bool
    requires { Loaded k public.now × Head k.modulus k.ring k.repeats head.now × (length work.old ≡ scratch_length) }
    ensures { (result ≡ round.splits (parameters k public.now) head.now) × (work.new ≡ zeros (length work.old)) }
{
    let n = k.ring as usize;
    round_tests::halves::adds(
        work,
        &head[0..8 * n],
        &head[8 * n..16 * n],
        &public[8 * n..16 * n],
        n,
        k.modulus,
    )
}

// Whether the half of the key at a place of a first message is that of an opening.
fn opens_key(
    work: &mut [u8],
    k: Numbers,
    public: &[u8],
    head: &[u8],
    at: usize,
    opening: &[u8],
) -> bool
    requires { Loaded k public.now × Opened k.modulus k.ring opening.now × (length work.old ≡ scratch_length)
        × (at + 8 * k.ring ≤ length head.now) }
    ensures { ((side : ℕ) → at ≡ 8 * k.ring * side
        → result ≡ opens_key (parameters k public.now) head.now side (opening_of k.ring opening.now))
        × (work.new ≡ zeros (length work.old)) }
{
    let n = k.ring as usize;
    round_tests::halves::is_key(
        work,
        k,
        &public[0..8 * n],
        &head[at..at + 8 * n],
        &opening[0..8 * n],
        &opening[8 * n..16 * n],
    )
}

// Whether the pair at a place of a first message, and the one two pairs further on, are those of an opening.
fn opens_pairs(
    work: &mut [u8],
    k: Numbers,
    public: &[u8],
    head: &[u8],
    at: usize,
    opening: &[u8],
) -> bool
    requires { Loaded k public.now × Opened k.modulus k.ring opening.now × (length work.old ≡ scratch_length)
        × (at + 48 * k.ring ≤ length head.now) }
    ensures { ((side : ℕ) → at ≡ 16 * k.ring + 16 * k.ring * side
        → result ≡ opens_pairs (parameters k public.now) head.now side (opening_of k.ring opening.now))
        × (work.new ≡ zeros (length work.old)) }
{
    let n = k.ring as usize;
    let end = at + 48 * n;
    round_tests::halves::opens_pairs(
        work,
        &public[16 * n..40 * n],
        &head[at..at + 16 * n],
        &head[at + 32 * n..end],
        &opening[0..8 * n],
        &opening[8 * n..16 * n],
        &opening[16 * n..19 * n],
        &opening[19 * n..22 * n],
        n,
        k.modulus,
    )
}

// The half of the key and the pairs of a side: 7, then 8.
pub fn test_opening(
    work: &mut [u8],
    k: Numbers,
    public: &[u8],
    head: &[u8],
    side: usize,
    opening: &[u8],
) -> Reply
    requires { Loaded k public.now × Opened k.modulus k.ring opening.now × (length work.old ≡ scratch_length)
        × (80 * k.ring ≤ length head.now) × (side < 2) }
    ensures { Judged (half_tests (parameters k public.now) head.now side (opening_of k.ring opening.now))
        (as_reply result) work.old work.new }
{
    let n = k.ring as usize;
    if !opens_key(work, k, public, head, 8 * n * side, opening) {
        return Err(Refusal::OpenedKeyWrong);
    }
    if !opens_pairs(work, k, public, head, 16 * n + 16 * n * side, opening) {
        return Err(Refusal::OpenedCommitmentWrong);
    }
    Ok(())
}

// Every ballot by the opened half of the secret and the shares of its side: 12, then 13; and scratch zeroed.
pub fn test_votes<'a>(
    work: &mut [u8],
    k: Numbers,
    opening: &[u8],
    ballots: &[u8],
    claims: &[u8],
    side: u64,
    shares0: &'a [u8],
    shares1: &'a [u8],
    count: usize,
) -> Reply
    requires { Usable k × Opened k.modulus k.ring opening.now × (length work.old ≡ scratch_length) × (count ≤ 4096)
        × (side < 2) × Batch k.modulus k.ring count ballots.now claims.now × SharesLent k.modulus k.ring count shares0.now
        × SharesLent k.modulus k.ring count shares1.now }
    ensures { Judged (votes_tests k.modulus k.ring (plain k) (mask_bound_of k) count (slot opening.now 0)
        ballots.now claims.now shares0.now shares1.now (of_side side shares0.now shares1.now))
        (as_reply result) work.old work.new }
{
    let n = k.ring as usize;
    round_tests::ballots::test_ballots(
        work,
        k,
        &opening[0..8 * n],
        ballots,
        claims,
        side,
        shares0,
        shares1,
        count,
    )
}
