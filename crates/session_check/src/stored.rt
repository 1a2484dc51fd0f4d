// What is lent to the check of a round, compared with what a session holds, once the sheet is taken: 1 by the session's numbers and
// closed count, then 16. The sheet's own numbers are k.
ghost use Rattle.std.specs.Prelude.{◌≡◌, [], ◌*◌, length};
ghost use Rattle.codec.specs.Refusal.{as_reply};
ghost use Rattle.round.specs.Vocabulary.{first, ballot_length};
ghost use Rattle.sheet.specs.Reader.{sheet_of};
ghost use Rattle.session_check.specs.Stored.{challenges_of, inputs_lent, same_numbers, inputs_sized, stored_tests, lent_tests};
ghost use Rattle.session_check.specs.Internal.{Within};

use crate::Lent;
use codec::{Refusal, Reply};
use round_lengths::{message_sized, second_sized};
use sheet_numbers::Numbers;

// What a session holds for the check of a round: the sheet's numbers, how many ballots were closed, the digests of the sheet, of closing,
// of the claims and of the round's first message, the seed, and the round.
#[derive(Clone, Copy)]
pub struct Stored {
    pub numbers: Numbers,
    pub closed: usize,
    pub sheet: [u8; 32],
    pub closing: [u8; 32],
    pub claim: [u8; 32],
    pub message: [u8; 32],
    pub seed: [u8; 32],
    pub round: u16,
}

// Whether two sheets have equal numbers.
#[tactic(auto, unfolding(crate::specs::Stored::same_numbers, codec::specs::Bytes::same))]
fn same_numbers(a: Numbers, b: Numbers) -> bool
    ensures { result ≡ same_numbers a b }
{
    [a.ring, a.modulus, a.drown, a.rounds, a.repeats]
        == [b.ring, b.modulus, b.drown, b.rounds, b.repeats]
}

// 1: whether what is lent has the lengths that the session's numbers and closed count ask for, with the challenges that were drawn.
fn inputs_sized(held: Stored, challenges: &[u8], lent: Lent, scratch: &[u8]) -> bool
    requires { Within held × (challenges.now ≡ challenges_of held) }
    ensures { result ≡ inputs_sized held (inputs_lent lent.entry scratch.now) }
{
    let n = held.numbers.ring as usize;
    let repeats = held.numbers.repeats as usize;
    if !message_sized(
        lent.head,
        lent.shares0,
        lent.shares1,
        lent.ballots,
        lent.claims,
        held.closed,
        repeats,
        n,
    ) {
        return false;
    }
    second_sized(challenges, lent.opening, lent.answers, scratch, repeats, n)
}

// 16: sheet, ballots, claims and first message by the digests that the session holds, and the sheet's numbers by the session's.
fn test_stored(held: Stored, k: Numbers, lent: Lent) -> Reply
    requires { Within held × ((sheet_of lent.sheet.now).numbers ≡ k)
        × (length lent.ballots.now ≡ ballot_length held.numbers.ring * held.closed) }
    ensures { as_reply result ≡ first (stored_tests held (inputs_lent lent.entry [])) }
{
    let sheet_again = sha3::hash(lent.sheet);
    if !codec::equal(&sheet_again, &held.sheet) {
        return Err(Refusal::StoredDiffers);
    }
    if !same_numbers(k, held.numbers) {
        return Err(Refusal::StoredDiffers);
    }
    let size = 4 + 16 * (held.numbers.ring as usize);
    let closing_again = session_digests::closing_of_ballots(
        &held.sheet,
        lent.ballots,
        size,
        held.closed,
    );
    if !codec::equal(&closing_again, &held.closing) {
        return Err(Refusal::StoredDiffers);
    }
    let claim_again = session_digests::claim_digest(&held.closing, lent.claims);
    if !codec::equal(&claim_again, &held.claim) {
        return Err(Refusal::StoredDiffers);
    }
    let message_again = session_digests::round_digest(
        &held.claim,
        held.round,
        lent.head,
        lent.shares0,
        lent.shares1,
    );
    if !codec::equal(&message_again, &held.message) {
        return Err(Refusal::StoredDiffers);
    }
    Ok(())
}

// 1, then 16, with the challenges that were drawn.
pub fn test_lent(held: Stored, k: Numbers, challenges: &[u8], lent: Lent, scratch: &[u8]) -> Reply
    requires { Within held × ((sheet_of lent.sheet.now).numbers ≡ k) × (challenges.now ≡ challenges_of held) }
    ensures { as_reply result ≡ first (lent_tests held (inputs_lent lent.entry scratch.now)) }
{
    if !inputs_sized(held, challenges, lent, scratch) {
        return Err(Refusal::WrongLength);
    }
    test_stored(held, k, lent)
}
