// The check of one round for tests and benchmarks outside the proof, with the side and the challenges lent; in the library a session
// draws them.
// In C a slice is `uint8_t *, size_t`, and `const` where it is lent to be read.
#![tactic(auto)]

ghost use Rattle.codec.specs.Refusal.{as_reply};
ghost use Rattle.round.specs.Vocabulary.{round_in, first, zeroized, Loaded, parameters};
ghost use Rattle.test_check.specs.Replies.{RoundCheckCalled, round_check_tests};
ghost use Rattle.std.specs.Prelude.{◌≡◌};

use codec::{Refusal, Reply};
use round_lengths::{count_of, message_sized, second_sized};
use sheet_numbers::Numbers;

// ---- The check of one round once the sheet is taken: the tests of lengths, then the order of refusals.

// The check of one round.
fn check<'a>(
    k: Numbers,
    public: &[u8],
    side: u64,
    challenges: &[u8],
    ballots: &[u8],
    claims: &[u8],
    head: &[u8],
    shares0: &'a [u8],
    shares1: &'a [u8],
    opening: &[u8],
    answers: &[u8],
    scratch: &mut [u8],
) -> Reply
    requires { Loaded k public.now }
    ensures { let x = round_in side challenges ballots claims head shares0 shares1 opening answers in
        (as_reply result ≡ first (round_check_tests (parameters k public.now) x scratch.old))
        × (scratch.new ≡ zeroized (as_reply result) scratch.old) }
{
    let n = k.ring as usize;
    let repeats = k.repeats as usize;
    let count = count_of(ballots, n);
    if count > 4096 {
        return Err(Refusal::WrongLength);
    }
    if !message_sized(head, shares0, shares1, ballots, claims, count, repeats, n) {
        return Err(Refusal::WrongLength);
    }
    if !second_sized(challenges, opening, answers, scratch, repeats, n) {
        return Err(Refusal::WrongLength);
    }
    round_check::check_round(
        scratch, k, public, side, challenges, ballots, claims, head, shares0, shares1, opening,
        answers, count,
    )
}

// Checks one round with the side and the challenges that are lent. Answers 0 where the round is accepted, and else document 01's number,
// with the place above the low byte.
#[unsafe(no_mangle)]
pub extern "C" fn test_check_round<'a>(
    sheet: &[u8],
    side: u64,
    challenges: &[u8],
    ballots: &[u8],
    claims: &[u8],
    head: &[u8],
    shares0: &'a [u8],
    shares1: &'a [u8],
    opening: &[u8],
    answers: &[u8],
    scratch: &mut [u8],
) -> u64
    ensures { let x = round_in side challenges ballots claims head shares0 shares1 opening answers in
        RoundCheckCalled sheet.now x scratch.old result scratch.new }
{
    let mut public = [0u8; 81920];
    match sheet::load(sheet, &mut public) {
        Ok(k) => codec::pack(check(
            k, &public, side, challenges, ballots, claims, head, shares0, shares1, opening,
            answers, scratch,
        )),
        Err(why) => codec::pack(scratch::finish(Err(why), scratch)),
    }
}
