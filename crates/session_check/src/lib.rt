// The check of a round against what a session holds (document 01, the order of check after 31).
#![tactic(auto)]

pub mod stored;

ghost use Rattle.std.specs.Prelude.{◌≡◌, ◌≤◌, take};
ghost use Rattle.round.specs.Vocabulary.{Loaded, parameters};
ghost use Rattle.session_check.specs.Internal.{reply_of_verdict, CheckMade, Within, verdict, TakenChecked, verdict_by, as_verdict, Stopped};
ghost use Rattle.codec.specs.Reply.{Taken, Refused};
ghost use Rattle.codec.specs.Refusal.{as_reply, reply_by, number_of_refusal, place_of_refusal};
ghost use Rattle.scratch.specs.Call.{zeroized};
ghost use Rattle.sheet.specs.Reader.{sheet_of};
ghost use Rattle.session_digests.specs.Draw.{drawn_challenges};
ghost use Rattle.session_check.specs.Stored.{side_of, challenges_of, inputs_lent};

use crate::stored::Stored;
use codec::{Refusal, Refuses, Reply};
use sheet_numbers::Numbers;

// What is lent to the check of a round, beside scratch: the sheet, the batch, the claims, and the round's two messages.
#[derive(Clone, Copy)]
pub struct Lent<'a> {
    pub sheet: &'a [u8],
    pub ballots: &'a [u8],
    pub claims: &'a [u8],
    pub head: &'a [u8],
    pub shares0: &'a [u8],
    pub shares1: &'a [u8],
    pub opening: &'a [u8],
    pub answers: &'a [u8],
}

// What a check comes to: stopped before the round was looked at, failed by the round itself, or passed.
#[derive(Clone, Copy, PartialEq, Eq)]
pub enum Verdict<E = Refusal> {
    Stopped(E),
    Failed(E),
    Passed,
}

// The reply that a verdict stands for.
pub fn reply_of<E: Refuses>(verdict: Verdict<E>) -> Result<(), E>
    ensures { reply_by E.number E.place result ≡ reply_of_verdict (verdict_by E.number E.place verdict) }
{
    match verdict {
        Verdict::Stopped(why) => Err(why),
        Verdict::Failed(why) => Err(why),
        Verdict::Passed => Ok(()),
    }
}

// A check that is stopped before the round was looked at zeroes scratch by its refusal.
fn stopped(why: Refusal, scratch: &mut [u8]) -> Verdict
    ensures { (as_verdict result ≡ Stopped (number_of_refusal why) (place_of_refusal why))
        × (scratch.new ≡ zeroized (Refused (number_of_refusal why) (place_of_refusal why)) scratch.old) }
{
    scratch::zeroize(Err(why), scratch);
    Verdict::Stopped(why)
}

// ---- What a check comes to once the sheet is taken, with its numbers k: stopped before the round was looked at, failed by the round
// itself, or passed.

// The challenges that are drawn for a round, at the head of room for as many as there can be.
fn challenges_of(seed: &[u8; 32], round: u16, repeats: usize) -> [u8; 256]
    requires { repeats ≤ 256 }
    ensures { take repeats result ≡ drawn_challenges seed.now round repeats }
{
    let mut drawn = [0u8; 256];
    session_digests::drawing::challenges(seed, round, &mut drawn[0..repeats]);
    drawn
}

// The verdict on a round that was looked at, by its reply.
fn verdict_of(late: Reply) -> Verdict
    ensures { as_verdict result ≡ verdict Taken (as_reply late) }
{
    match late {
        Err(why) => Verdict::Failed(why),
        Ok(()) => Verdict::Passed,
    }
}

// The check with the side and the challenges that were drawn.
fn check_drawn(
    k: Numbers,
    public: &[u8],
    held: Stored,
    side: u64,
    challenges: &[u8],
    lent: Lent,
    scratch: &mut [u8],
) -> Verdict
    requires { Within held × ((sheet_of lent.sheet.now).numbers ≡ k) × Loaded k public.now × (side ≡ side_of held)
        × (challenges.now ≡ challenges_of held) }
    ensures { let x = inputs_lent lent.entry scratch.old in
        TakenChecked (parameters k public.now) held x (as_verdict result) scratch.new }
{
    let early = crate::stored::test_lent(held, k, challenges, lent, scratch);
    match early {
        Err(why) => stopped(why, scratch),
        Ok(()) => verdict_of(round_check::check_round(
            scratch,
            k,
            public,
            side,
            challenges,
            lent.ballots,
            lent.claims,
            lent.head,
            lent.shares0,
            lent.shares1,
            lent.opening,
            lent.answers,
            held.closed,
        )),
    }
}

// The check with the sheet's polynomials at hand: draws the side and the challenges.
fn check_taken(k: Numbers, public: &[u8], held: Stored, lent: Lent, scratch: &mut [u8]) -> Verdict
    requires { Within held × ((sheet_of lent.sheet.now).numbers ≡ k) × Loaded k public.now }
    ensures { let x = inputs_lent lent.entry scratch.old in
        TakenChecked (parameters k public.now) held x (as_verdict result) scratch.new }
{
    let repeats = held.numbers.repeats as usize;
    let drawn = challenges_of(&held.seed, held.round, repeats);
    let side = session_digests::drawing::side(&held.seed, held.round);
    check_drawn(k, public, held, side, &drawn[0..repeats], lent, scratch)
}

// Checks a round against what the session holds.
pub fn check(held: Stored, lent: Lent, scratch: &mut [u8]) -> Verdict
    requires { Within held }
    ensures { CheckMade held (inputs_lent lent.entry scratch.old) (as_verdict result) scratch.new }
{
    let mut public = [0u8; 81920];
    match sheet::load(lent.sheet, &mut public) {
        Ok(k) => check_taken(k, &public, held, lent, scratch),
        Err(why) => stopped(why, scratch),
    }
}
