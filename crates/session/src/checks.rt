// The check of a round, and what was drawn for it.
ghost use Rattle.std.specs.Prelude.{◌≡◌, ◌<◌};
ghost use Rattle.codec.specs.Refusal.{as_reply};
ghost use Rattle.register.specs.Internal.{Wrote};
ghost use Rattle.session_check.specs.Stored.{inputs_lent};
ghost use Rattle.session_check.specs.Internal.{reply_of_verdict, as_verdict};
ghost use Rattle.session_progress.specs.Progress.{drawn};
ghost use Rattle.session.specs.Steps.{challenges_tests, challenges_out};
ghost use Rattle.session.specs.Internal.{judged_by, CheckDone, as_stepped};

use crate::{Session, Stepped, trail};
use codec::{Refusal, Reply};
use session_check::stored::Stored;
use session_check::{Lent, Verdict};

impl Session {
    // What a verdict on the round that is due leaves: a round that fails ends the session refused, the last one that passes ends it
    // accepted.
    fn judged(self, verdict: Verdict) -> Stepped
        requires { (self.progress.phase ≡ drawn) × (self.progress.checked < self.numbers.rounds) }
        ensures { let v = as_verdict verdict in
            (as_reply result.reply ≡ reply_of_verdict v) × (result.session ≡ judged_by v self) }
    {
        let reply = session_check::reply_of(verdict);
        match verdict {
            Verdict::Stopped(_) => Stepped {
                session: self,
                reply,
            },
            Verdict::Failed(_) => Stepped {
                session: Session {
                    progress: self.progress.with_refusal(),
                    ..self
                },
                reply,
            },
            Verdict::Passed => Stepped {
                session: Session {
                    progress: self.progress.with_acceptance(self.numbers.rounds),
                    ..self
                },
                reply,
            },
        }
    }

    // Checks the next round.
    pub fn check(self, round: u64, lent: Lent, scratch: &mut [u8]) -> Stepped
        ensures { CheckDone round (inputs_lent lent.entry scratch.old) self (as_stepped result) scratch.new }
    {
        if !self.progress.may_check(self.numbers, round) {
            return self.refused(Refusal::NotDue);
        }
        let held = Stored {
            numbers: self.numbers,
            closed: self.progress.closed as usize,
            sheet: self.sheet,
            closing: self.closing,
            claim: self.claim,
            message: trail::read(&self.trail, round as usize),
            seed: self.seed,
            round: round as u16,
        };
        let verdict = session_check::check(held, lent, scratch);
        self.judged(verdict)
    }

    // Writes the side and the challenges that were drawn for a round.
    pub fn challenges(self, round: u64, out: &mut [u8]) -> Reply
        ensures { Wrote (challenges_tests self round out.old) (challenges_out self round) (as_reply result) out.old out.new }
    {
        if !self.progress.has_challenges(self.numbers, round) {
            return Err(Refusal::NotDue);
        }
        if out.len() != 1 + (self.numbers.repeats as usize) {
            return Err(Refusal::WrongLength);
        }
        out[0] = session_digests::drawing::side(&self.seed, round as u16) as u8;
        session_digests::drawing::challenges(&self.seed, round as u16, &mut out[1..]);
        Ok(())
    }
}
