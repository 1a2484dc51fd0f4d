// The steps up to closing: clear, admit, withdraw, close; and turnout.
ghost use Rattle.std.specs.Prelude.{◌≡◌, ◌≤◌};
ghost use Rattle.codec.specs.Reply.{Taken};
ghost use Rattle.codec.specs.Refusal.{as_reply};
ghost use Rattle.round.specs.Vocabulary.{first};
ghost use Rattle.register.specs.Register.{turnout};
ghost use Rattle.session.specs.Steps.{on, entered_by, turnout_tests, turnout_by, CountedAs};
ghost use Rattle.session.specs.Machine.{clear, admit, withdraw, close, state};
ghost use Rattle.session.specs.Internal.{Done, as_stepped};

use crate::{Session, Stepped};
use codec::Refusal;
use register::Withdrawn;
use session_progress::{GATHERING, Progress};

impl Session {
    // Starts anew, on a sheet and with an empty register, from any session.
    pub fn clear(self, reg: &mut [u8], text: &[u8]) -> Stepped
        ensures { Done (clear (on text.now)) (state self reg.old) (as_stepped result) reg.new }
    {
        if reg.len() != register::REGISTER {
            return self.refused(Refusal::WrongLength);
        }
        match sheet::read(text) {
            Ok(numbers) => {
                codec::wipe(reg);
                let sheet = sha3::hash(text);
                let none = [0u8; 32];
                Stepped {
                    session: Session {
                        progress: Progress::start(),
                        numbers,
                        sheet,
                        closing: none,
                        claim: none,
                        seed: none,
                        trail: [0u8; 4096],
                    },
                    reply: Ok(()),
                }
            }
            Err(why) => self.refused(why),
        }
    }

    // The session with one entry more, once the register has it.
    fn entered(self) -> Stepped
        requires { self.progress.used ≤ 4096 }
        ensures { (result.session ≡ entered_by self) × (as_reply result.reply ≡ Taken) }
    {
        Stepped {
            session: Session {
                progress: self.progress.with_entry(),
                ..self
            },
            reply: Ok(()),
        }
    }

    // Admits a ballot.
    pub fn admit(self, reg: &mut [u8], ballot: &[u8]) -> Stepped
        ensures { Done (admit ballot.now) (state self reg.old) (as_stepped result) reg.new }
    {
        if !self.progress.is_in(self.numbers, GATHERING) {
            return self.refused(Refusal::NotDue);
        }
        if reg.len() != register::REGISTER {
            return self.refused(Refusal::WrongLength);
        }
        if ballot.len() != 4 + 16 * (self.numbers.ring as usize) {
            return self.refused(Refusal::WrongLength);
        }
        if !ring::in_range(&ballot[4..], self.numbers.modulus) {
            return self.refused(Refusal::ValueOutOfRange);
        }
        match register::admit(reg, self.progress.used as usize, ballot) {
            Ok(()) => self.entered(),
            Err(why) => self.refused(why),
        }
    }

    // Withdraws a mark, whether its ballot has come or not.
    pub fn withdraw(self, reg: &mut [u8], mark: u32) -> Stepped
        ensures { Done (withdraw mark) (state self reg.old) (as_stepped result) reg.new }
    {
        if !self.progress.is_in(self.numbers, GATHERING) {
            return self.refused(Refusal::NotDue);
        }
        if reg.len() != register::REGISTER {
            return self.refused(Refusal::WrongLength);
        }
        match register::withdraw(reg, self.progress.used as usize, mark) {
            Ok(Withdrawn::Entered) => self.entered(),
            Ok(Withdrawn::Struck) => Stepped {
                session: self,
                reply: Ok(()),
            },
            Err(why) => self.refused(why),
        }
    }

    // Closes the batch of the standing entries.
    pub fn close(self, reg: &[u8]) -> Stepped
        ensures { Done close (state self reg.now) (as_stepped result) reg.now }
    {
        if !self.progress.is_in(self.numbers, GATHERING) {
            return self.refused(Refusal::NotDue);
        }
        if reg.len() != register::REGISTER {
            return self.refused(Refusal::WrongLength);
        }
        let used = self.progress.used as usize;
        let count = register::count_standing(reg, used);
        if count == 0 {
            return self.refused(Refusal::NoneStanding);
        }
        Stepped {
            session: Session {
                progress: self.progress.with_batch(count as u64),
                closing: session_digests::closing_of_register(&self.sheet, reg, used),
                ..self
            },
            reply: Ok(()),
        }
    }

    // The standing entries in thousandths of the enrolled.
    pub fn turnout(self, reg: &[u8], enrolled: u64) -> Result<u32, Refusal>
        ensures { CountedAs (turnout_by (first (turnout_tests self reg.now enrolled)) (turnout reg.now self.progress.used
            enrolled)) result }
    {
        if !self.progress.is_valid(self.numbers) {
            return Err(Refusal::NotDue);
        }
        if reg.len() != register::REGISTER {
            return Err(Refusal::WrongLength);
        }
        if !(1..=1000000).contains(&enrolled) {
            return Err(Refusal::NumberOutOfRange);
        }
        Ok(register::turnout(reg, self.progress.used as usize, enrolled))
    }
}
