// The tests of the answers in a check: by repetition 9, 10, 11, the lowest repetition first.
ghost use Rattle.std.specs.Prelude.{◌≡◌, true, ◌+◌, ◌*◌, ◌≤◌, length};
ghost use Rattle.round.specs.Vocabulary.{part, all_below, scratch_length, Judged, keys_of, key_bytes, Loaded, vector, answer_length, in_range};
ghost use Rattle.round.specs.Vocabulary.{answer_tests, head_length, pairs_of, answers_tests, parameters};
ghost use Rattle.codec.specs.Refusal.{as_reply};
ghost use Rattle.round.specs.Internal.{Answers};

use codec::Reply;
use sheet_numbers::Numbers;

// One repetition where its digests and its answer stand, and scratch zeroed.
pub fn test_at(
    work: &mut [u8],
    k: Numbers,
    public: &[u8],
    head: &[u8],
    digests: usize,
    challenge: u8,
    answers: &[u8],
    at: usize,
    size: usize,
    place: u32,
) -> Reply
    requires { Loaded k public.now × (length work.old ≡ scratch_length) × (80 * k.ring ≤ length head.now)
        × (digests + 96 ≤ length head.now) × (size ≡ answer_length k.ring challenge) × (at + size ≤ length answers.now)
        × (all_below k.modulus (vector (pairs_of k.ring head.now)) ≡ true)
        × (in_range k.modulus k.ring challenge (part answers.now at size) ≡ true) }
    ensures { let keys = keys_of k.ring (key_bytes k public.now) in
        Judged (answer_tests k.modulus k.ring keys (pairs_of k.ring head.now) (part head.now digests 96) place challenge
        (part answers.now at size)) (as_reply result) work.old work.new }
{
    let n = k.ring as usize;
    stern_answers::testing::test_answer(
        work,
        &public[16 * n..40 * n],
        &head[16 * n..80 * n],
        &head[digests..digests + 96],
        challenge,
        &answers[at..at + size],
        place,
        n,
        k.modulus,
    )
}

// Every repetition, in order, and scratch zeroed.
pub fn test_repetitions(
    work: &mut [u8],
    k: Numbers,
    public: &[u8],
    head: &[u8],
    challenges: &[u8],
    answers: &[u8],
) -> Reply
    requires { Loaded k public.now × (length work.old ≡ scratch_length) × (length head.now ≡ head_length k.ring k.repeats)
        × (all_below k.modulus (vector (pairs_of k.ring head.now)) ≡ true)
        × Answers k.modulus k.ring k.repeats challenges.now answers.now }
    ensures { Judged (answers_tests (parameters k public.now) head.now challenges.now answers.now)
        (as_reply result) work.old work.new }
{
    let n = k.ring as usize;
    let repeats = k.repeats as usize;
    let mut at = 0;
    for i in 0..repeats {
        let challenge = challenges[i];
        let size = stern_answers::layout::answer_length(n, challenge);
        test_at(
            work,
            k,
            public,
            head,
            80 * n + 96 * i,
            challenge,
            answers,
            at,
            size,
            i as u32,
        )?;
        at += size;
    }
    codec::wipe(work);
    Ok(())
}
