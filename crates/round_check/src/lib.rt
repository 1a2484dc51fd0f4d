// The check of a round: 5, 6, 7, 8; by repetition 9, 10, 11; by ballot 12, 13.
#![tactic(auto)]

ghost use Rattle.std.specs.Prelude.{◌≡◌, ◌++◌, ◌*◌, ◌≤◌, length};
ghost use Rattle.round.specs.Vocabulary.{Bytes, slot, plain, mask_bound_of, scratch_length, Judged, Loaded, ballot_length};
ghost use Rattle.round.specs.Vocabulary.{answers_length, of_side, answers_tests, votes_tests, round_in, parameters};
ghost use Rattle.round.specs.Round.{ranged, round_later, round_tests};
ghost use Rattle.round.specs.Internal.{round_of, Lengths};
ghost use Rattle.codec.specs.Refusal.{as_reply};
ghost use Rattle.round_side.specs.Internal.{RoundInRange};

use codec::{Refusal, Reply};
use round_side::{
    answers_ranged, message_ranged, opening_ranged, splits, test_opening, test_votes,
};
use round_tests::repetitions::test_repetitions;
use sheet_numbers::Numbers;

// 5: whether all that is lent is in range. The polynomials of the sheet, whatever they are, do not enter.
fn round_ranged(
    k: Numbers,
    side: u64,
    challenges: &[u8],
    ballots: &[u8],
    claims: &[u8],
    head: &[u8],
    shares0: &[u8],
    shares1: &[u8],
    opening: &[u8],
    answers: &[u8],
    count: usize,
) -> bool
    requires { (k.ring ≤ 2048) × (count ≤ 4096) × (k.repeats ≤ 256) × (length challenges.now ≡ k.repeats)
        × (length answers.now ≡ answers_length k.ring challenges.now) × (length ballots.now ≡ ballot_length k.ring * count)
        × (80 * k.ring ≤ length head.now) × (length opening.now ≡ 22 * k.ring) }
    ensures { let x = round_in side challenges ballots claims head shares0 shares1 opening answers in
        ((s : Bytes) → result ≡ ranged (parameters k s) count x) }
{
    if 2 <= side {
        return false;
    }
    if !answers_ranged(k, challenges, answers) {
        return false;
    }
    if !message_ranged(k, ballots, claims, head, shares0, shares1, count) {
        return false;
    }
    opening_ranged(k, opening)
}

// By repetition 9, 10, 11, then by ballot 12, 13 with the shares of the opened side; and scratch zeroed.
fn check_answers<'a>(
    work: &mut [u8],
    k: Numbers,
    public: &[u8],
    side: u64,
    challenges: &[u8],
    ballots: &[u8],
    claims: &[u8],
    head: &[u8],
    shares0: &'a [u8],
    shares1: &'a [u8],
    opening: &[u8],
    answers: &[u8],
    count: usize,
) -> Reply
    requires { Loaded k public.now × (length work.old ≡ scratch_length) × (count ≤ 4096)
        × RoundInRange k.modulus k.ring count k.repeats
        (round_of side challenges.now ballots.now claims.now head.now shares0.now shares1.now opening.now answers.now) }
    ensures { Judged (answers_tests (parameters k public.now) head.now challenges.now answers.now
        ++ votes_tests k.modulus k.ring (plain k) (mask_bound_of k) count (slot opening.now 0) ballots.now claims.now
        shares0.now shares1.now (of_side side shares0.now shares1.now)) (as_reply result) work.old work.new }
{
    match test_repetitions(work, k, public, head, challenges, answers) {
        Ok(()) => test_votes(
            work, k, opening, ballots, claims, side, shares0, shares1, count,
        ),
        Err(unanswered) => Err(unanswered),
    }
}

// 6, 7, 8, then the answers and the ballots, of a round that is in range; and scratch zeroed.
fn check_ranged<'a>(
    work: &mut [u8],
    k: Numbers,
    public: &[u8],
    side: u64,
    challenges: &[u8],
    ballots: &[u8],
    claims: &[u8],
    head: &[u8],
    shares0: &'a [u8],
    shares1: &'a [u8],
    opening: &[u8],
    answers: &[u8],
    count: usize,
) -> Reply
    requires { Loaded k public.now × (length work.old ≡ scratch_length) × (count ≤ 4096)
        × RoundInRange k.modulus k.ring count k.repeats
        (round_of side challenges.now ballots.now claims.now head.now shares0.now shares1.now opening.now answers.now) }
    ensures { let x = round_in side challenges ballots claims head shares0 shares1 opening answers in
        Judged (round_later (parameters k public.now) count x) (as_reply result) work.old work.new }
{
    if !splits(work, k, public, head) {
        return Err(Refusal::HalvesNotAdding);
    }
    match test_opening(work, k, public, head, side as usize, opening) {
        Ok(()) => check_answers(
            work, k, public, side, challenges, ballots, claims, head, shares0, shares1, opening,
            answers, count,
        ),
        Err(unopened) => Err(unopened),
    }
}

// The whole check of a round whose lengths are right, for a sheet that was taken and `count` ballots; and scratch zeroed.
#[tactic(auto, using(crate::proofs::Refused::out_of_range))]
pub fn check_round<'a>(
    work: &mut [u8],
    k: Numbers,
    public: &[u8],
    side: u64,
    challenges: &[u8],
    ballots: &[u8],
    claims: &[u8],
    head: &[u8],
    shares0: &'a [u8],
    shares1: &'a [u8],
    opening: &[u8],
    answers: &[u8],
    count: usize,
) -> Reply
    requires { Loaded k public.now × (length work.old ≡ scratch_length) × (count ≤ 4096)
        × Lengths (parameters k public.now) count
        (round_of side challenges.now ballots.now claims.now head.now shares0.now shares1.now opening.now answers.now) }
    ensures { let x = round_in side challenges ballots claims head shares0 shares1 opening answers in
        Judged (round_tests (parameters k public.now) count x) (as_reply result) work.old work.new }
{
    if !round_ranged(
        k, side, challenges, ballots, claims, head, shares0, shares1, opening, answers, count,
    ) {
        codec::wipe(work);
        return Err(Refusal::ValueOutOfRange);
    }
    check_ranged(
        work, k, public, side, challenges, ballots, claims, head, shares0, shares1, opening,
        answers, count,
    )
}
