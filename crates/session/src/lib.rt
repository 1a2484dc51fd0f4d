// The session of a count (document 01, "Register and session"): a value that each step takes and hands back with its answer.
#![tactic(auto)]

mod checks;
mod counting;
mod gathering;
mod trail;

ghost use Rattle.std.specs.Prelude.{◌≡◌};
ghost use Rattle.codec.specs.Reply.{Refused};
ghost use Rattle.codec.specs.Refusal.{as_reply, number_of_refusal, place_of_refusal};

use codec::Refusal;
use session_progress::Progress;
use sheet_numbers::Numbers;

// A session. It keeps its phase and counts; the sheet's numbers before a and the sheet's digest; the closing and the claim digest; the
// seed; and the digests of the rounds' first messages, 32 bytes each.
#[derive(Clone, Copy)]
pub struct Session {
    pub progress: Progress,
    pub numbers: Numbers,
    pub sheet: [u8; 32],
    pub closing: [u8; 32],
    pub claim: [u8; 32],
    pub seed: [u8; 32],
    pub trail: [u8; 4096],
}

// What a step answers, and the session that it leaves.
// By value, and not `&mut self`: document 01 asks for it ("A caller passes a session in by value and each step returns it").
#[derive(Clone, Copy)]
pub struct Stepped<E = Refusal> {
    pub session: Session,
    pub reply: Result<(), E>,
}

impl Session {
    // The session as it is, and a refusal.
    fn refused(self, why: Refusal) -> Stepped
        ensures { (result.session ≡ self) × (as_reply result.reply ≡ Refused (number_of_refusal why) (place_of_refusal why)) }
    {
        Stepped {
            session: self,
            reply: Err(why),
        }
    }
}
