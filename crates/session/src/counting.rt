// The steps of the count: claim, commit, draw.
ghost use Rattle.std.specs.Prelude.{◌≡◌, true, [], ◌∷◌, ◌*◌, ◌≤◌, length};
ghost use Rattle.round.specs.Vocabulary.{same, head_length};
ghost use Rattle.session.specs.Session.{valid};
ghost use Rattle.session.specs.Machine.{claim, commit, draw};
ghost use Rattle.session.specs.Internal.{DoneAlone, as_stepped};

use crate::{Session, Stepped, trail};
use codec::Refusal;
use session_progress::CLOSED;

// The bytes of all ballots, from those of one.
fn times(bytes: u64, ballots: u64) -> usize
    requires { (bytes ≤ 16384) × (ballots ≤ 4096) }
    ensures { result ≡ bytes * ballots }
{
    (bytes * ballots) as usize
}

impl Session {
    // Takes the claims.
    pub fn claim(self, claims: &[u8]) -> Stepped
        ensures { DoneAlone (claim claims.now) self (as_stepped result) }
    {
        if !self.progress.is_in(self.numbers, CLOSED) {
            return self.refused(Refusal::NotDue);
        }
        if claims.len() != times(self.numbers.ring, self.progress.closed) {
            return self.refused(Refusal::WrongLength);
        }
        let p = sheet_numbers::plain(self.numbers);
        if !bgv::is_message(claims, p) {
            return self.refused(Refusal::ValueOutOfRange);
        }
        Stepped {
            session: Session {
                progress: self.progress.with_claims(),
                claim: session_digests::claim_digest(&self.closing, claims),
                ..self
            },
            reply: Ok(()),
        }
    }

    // Whether a first message has its lengths.
    fn message_sized(self, head: &[u8], shares0: &[u8], shares1: &[u8]) -> bool
        requires { valid self ≡ true }
        ensures { result ≡ same (length head.now ∷ length shares0.now ∷ length shares1.now ∷ [])
            (head_length self.numbers.ring self.numbers.repeats ∷ 8 * self.numbers.ring * self.progress.closed
            ∷ 8 * self.numbers.ring * self.progress.closed ∷ []) }
    {
        let n = self.numbers.ring;
        let share = times(8 * n, self.progress.closed);
        let front = (80 * n + 96 * self.numbers.repeats) as usize;
        scratch::sized(
            [head.len(), shares0.len(), shares1.len(), 0, 0, 0],
            [front, share, share, 0, 0, 0],
        )
    }

    // Takes the first message of the next round.
    pub fn commit(self, round: u64, head: &[u8], shares0: &[u8], shares1: &[u8]) -> Stepped
        ensures { DoneAlone (commit round head.now shares0.now shares1.now) self (as_stepped result) }
    {
        if !self.progress.may_commit(self.numbers, round) {
            return self.refused(Refusal::NotDue);
        }
        if !self.message_sized(head, shares0, shares1) {
            return self.refused(Refusal::WrongLength);
        }
        let digest = session_digests::round_digest(
            &self.claim,
            round as u16,
            head,
            shares0,
            shares1,
        );
        let mut trail = self.trail;
        trail::write(&mut trail, round as usize, &digest);
        Stepped {
            session: Session {
                progress: self.progress.with_message(),
                trail,
                ..self
            },
            reply: Ok(()),
        }
    }

    // Takes the seed, once all rounds are committed.
    pub fn draw(self, seed: &[u8]) -> Stepped
        ensures { DoneAlone (draw seed.now) self (as_stepped result) }
    {
        if !self.progress.may_draw(self.numbers) {
            return self.refused(Refusal::NotDue);
        }
        if seed.len() != 32 {
            return self.refused(Refusal::WrongLength);
        }
        Stepped {
            session: Session {
                progress: self.progress.with_seed(),
                seed: codec::array(seed, 0),
                ..self
            },
            reply: Ok(()),
        }
    }
}
