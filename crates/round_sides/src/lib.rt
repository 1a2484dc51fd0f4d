// The tests of two openings and three answers to one first message, in the order of the extractor (document 01, "One round" and the
// orders of refusals).
#![tactic(auto)]

ghost use Rattle.std.specs.Prelude.{◌≡◌, ◌*◌, ◌≤◌, ◌<◌, ◌+◌, length, ◌&&◌};
ghost use Rattle.round.specs.Vocabulary.{scratch_length, Judged, Loaded, opening_of, of_side};
ghost use Rattle.round.specs.Vocabulary.{parameters, Batch, SharesLent, part};
ghost use Rattle.round.specs.Vocabulary.{keys_of, key_bytes, answer_length, in_range, answer_tests, pairs_of, Bytes, openings_in};
ghost use Rattle.round.specs.Extractor.{side_tests, three_tests, Lent, openings_of, lent_ranged, extract_later, extract_tests};
ghost use Rattle.round_side.specs.Internal.{Opened, Head};
ghost use Rattle.codec.specs.Refusal.{as_reply};
ghost use Rattle.round_sides.specs.Internal.{AnswerLent, OpeningsInRange, OpeningsSized};

use codec::{Refusal, Reply};
use round_side::{message_ranged, opening_ranged, splits, test_opening, test_votes};
use sheet_numbers::Numbers;
use stern_answers::layout::answer_ranged;

// ---- The opening of a side, as the extractor is lent it: 7, 8 and by ballot 12, 13.

// All that a side's opening is tested by, and scratch zeroed.
fn test_side<'a>(
    work: &mut [u8],
    k: Numbers,
    public: &[u8],
    head: &[u8],
    ballots: &[u8],
    claims: &[u8],
    side: u64,
    shares0: &'a [u8],
    shares1: &'a [u8],
    opening: &[u8],
    count: usize,
) -> Reply
    requires { Loaded k public.now × Opened k.modulus k.ring opening.now × (length work.old ≡ scratch_length)
        × (80 * k.ring ≤ length head.now) × (side < 2) × (count ≤ 4096) × Batch k.modulus k.ring count ballots.now claims.now
        × SharesLent k.modulus k.ring count shares0.now × SharesLent k.modulus k.ring count shares1.now }
    ensures { Judged (side_tests (parameters k public.now) count head.now ballots.now claims.now
        shares0.now shares1.now side (of_side side shares0.now shares1.now) (opening_of k.ring opening.now))
        (as_reply result) work.old work.new }
{
    test_opening(work, k, public, head, side as usize, opening)?;
    test_votes(
        work, k, opening, ballots, claims, side, shares0, shares1, count,
    )
}

// ---- The three answers of a repetition, as the extractor is lent them: their ranges, and by answer 9, 10, 11.

// Whether the numbers of the three answers are in range.
fn answers_ranged(k: Numbers, answer1: &[u8], answer2: &[u8], answer3: &[u8]) -> bool
    requires { (k.ring ≤ 2048) × (length answer1.now ≡ answer_length k.ring 1) × (length answer2.now ≡ answer_length k.ring 2)
        × (length answer3.now ≡ answer_length k.ring 3) }
    ensures { result ≡ (in_range k.modulus k.ring 1 answer1.now
        && (in_range k.modulus k.ring 2 answer2.now && in_range k.modulus k.ring 3 answer3.now)) }
{
    let n = k.ring as usize;
    let q = k.modulus;
    answer_ranged(1, answer1, n, q)
        && answer_ranged(2, answer2, n, q)
        && answer_ranged(3, answer3, n, q)
}

// One answer, against digests where they stand.
fn test_answer(
    work: &mut [u8],
    k: Numbers,
    public: &[u8],
    head: &[u8],
    digests: usize,
    challenge: u8,
    answer: &[u8],
    place: u32,
) -> Reply
    requires { Loaded k public.now × (length work.old ≡ scratch_length) × Head k.modulus k.ring k.repeats head.now
        × (digests + 96 ≤ length head.now) × AnswerLent k.modulus k.ring challenge answer.now }
    ensures { Judged (answer_tests k.modulus k.ring (keys_of k.ring (key_bytes k public.now))
        (pairs_of k.ring head.now) (part head.now digests 96) place challenge answer.now)
        (as_reply result) work.old work.new }
{
    round_tests::repetitions::test_at(
        work,
        k,
        public,
        head,
        digests,
        challenge,
        answer,
        0,
        answer.len(),
        place,
    )
}

// The three answers of a repetition, in order, and scratch zeroed.
fn test_answers(
    work: &mut [u8],
    k: Numbers,
    public: &[u8],
    head: &[u8],
    repetition: u64,
    answer1: &[u8],
    answer2: &[u8],
    answer3: &[u8],
) -> Reply
    requires { Loaded k public.now × (length work.old ≡ scratch_length) × (repetition < k.repeats)
        × Head k.modulus k.ring k.repeats head.now × AnswerLent k.modulus k.ring 1 answer1.now
        × AnswerLent k.modulus k.ring 2 answer2.now × AnswerLent k.modulus k.ring 3 answer3.now }
    ensures { Judged (three_tests (parameters k public.now) head.now repetition answer1.now answer2.now
        answer3.now) (as_reply result) work.old work.new }
{
    let digests = 80 * (k.ring as usize) + 96 * (repetition as usize);
    let place = repetition as u32;
    test_answer(work, k, public, head, digests, 1, answer1, place)?;
    test_answer(work, k, public, head, digests, 2, answer2, place)?;
    test_answer(work, k, public, head, digests, 3, answer3, place)
}

// ---- The tests of the extractor: 5, 6; for side 0 and then side 1 7, 8 and by ballot 12, 13; then for the three answers of a repetition
// 9, 10, 11.

// 5: whether all that is lent is in range. The polynomials of the sheet, whatever they are, do not enter.
#[tactic(auto, unfolding(round::specs::Extractor::lent_ranged, round::specs::Round::ballots_ranged))]
fn openings_ranged(
    k: Numbers,
    head: &[u8],
    shares0: &[u8],
    shares1: &[u8],
    ballots: &[u8],
    claims: &[u8],
    opening0: &[u8],
    opening1: &[u8],
    repetition: u64,
    answer1: &[u8],
    answer2: &[u8],
    answer3: &[u8],
    count: usize,
) -> bool
    requires { (k.ring ≤ 2048) × (count ≤ 4096)
        × OpeningsSized k.ring count (openings_of head.now shares0.now shares1.now ballots.now claims.now opening0.now
        opening1.now repetition answer1.now answer2.now answer3.now) }
    ensures { let x = openings_in head shares0 shares1 ballots claims opening0 opening1 repetition answer1 answer2 answer3 in
        ((s : Bytes) → result ≡ lent_ranged (parameters k s) count x) }
{
    repetition < k.repeats as u64
        && message_ranged(k, ballots, claims, head, shares0, shares1, count)
        && opening_ranged(k, opening0)
        && opening_ranged(k, opening1)
        && answers_ranged(k, answer1, answer2, answer3)
}

// 6, both sides, then the answers, of what is in range; and scratch zeroed.
fn test_ranged<'a>(
    work: &mut [u8],
    k: Numbers,
    public: &[u8],
    head: &[u8],
    shares0: &'a [u8],
    shares1: &'a [u8],
    ballots: &[u8],
    claims: &[u8],
    opening0: &[u8],
    opening1: &[u8],
    repetition: u64,
    answer1: &[u8],
    answer2: &[u8],
    answer3: &[u8],
    count: usize,
) -> Reply
    requires { Loaded k public.now × (length work.old ≡ scratch_length) × (count ≤ 4096)
        × OpeningsInRange k.modulus k.ring count k.repeats
        (openings_of head.now shares0.now shares1.now ballots.now claims.now opening0.now opening1.now repetition
        answer1.now answer2.now answer3.now) }
    ensures { let x = openings_in head shares0 shares1 ballots claims opening0 opening1 repetition answer1 answer2 answer3 in
        Judged (extract_later (parameters k public.now) count x) (as_reply result) work.old work.new }
{
    if !splits(work, k, public, head) {
        return Err(Refusal::HalvesNotAdding);
    }
    test_side(
        work, k, public, head, ballots, claims, 0, shares0, shares1, opening0, count,
    )?;
    test_side(
        work, k, public, head, ballots, claims, 1, shares0, shares1, opening1, count,
    )?;
    test_answers(work, k, public, head, repetition, answer1, answer2, answer3)
}

// All tests of the extractor, for lengths that are right; and scratch zeroed.
pub fn check_openings<'a>(
    work: &mut [u8],
    k: Numbers,
    public: &[u8],
    head: &[u8],
    shares0: &'a [u8],
    shares1: &'a [u8],
    ballots: &[u8],
    claims: &[u8],
    opening0: &[u8],
    opening1: &[u8],
    repetition: u64,
    answer1: &[u8],
    answer2: &[u8],
    answer3: &[u8],
    count: usize,
) -> Reply
    requires { Loaded k public.now × (length work.old ≡ scratch_length) × (count ≤ 4096)
        × Lent (parameters k public.now) count (openings_of head.now shares0.now shares1.now ballots.now claims.now
        opening0.now opening1.now repetition answer1.now answer2.now answer3.now) }
    ensures { let x = openings_in head shares0 shares1 ballots claims opening0 opening1 repetition answer1 answer2 answer3 in
        Judged (extract_tests (parameters k public.now) count x) (as_reply result) work.old work.new }
{
    if !openings_ranged(
        k, head, shares0, shares1, ballots, claims, opening0, opening1, repetition, answer1,
        answer2, answer3, count,
    ) {
        codec::wipe(work);
        return Err(Refusal::ValueOutOfRange);
    }
    test_ranged(
        work, k, public, head, shares0, shares1, ballots, claims, opening0, opening1, repetition,
        answer1, answer2, answer3, count,
    )
}
