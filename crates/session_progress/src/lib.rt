// The phase and the counts of a session (document 01, "Register and session"): which step is due, and how each moves them. A value that
// each step takes and hands back.
#![tactic(auto)]

ghost use Rattle.std.specs.Prelude.{◌≡◌, ◌&&◌, ◌≤◌, ◌<◌, eqb, ltb};
ghost use Rattle.session_progress.specs.Progress.{drawn, in_limits, commit_due, draw_due, check_due, challenges_due, initial, with_entry};
ghost use Rattle.session_progress.specs.Progress.{with_batch, with_claims, with_message, with_seed, with_refusal, with_acceptance};

use sheet_numbers::Numbers;

pub const GATHERING: u8 = 0;

pub const CLOSED: u8 = 1;

pub const CLAIMED: u8 = 2;

pub const DRAWN: u8 = 3;

pub const ENDED_REFUSED: u8 = 4;

pub const ENDED_ACCEPTED: u8 = 5;

// How many entries a register has.
const CAPACITY: u64 = 4096;

// The phase; then how many entries of the register are used, how many ballots were closed, and how many rounds are committed and checked.
// The phase is a number and no enum: it may be unknown, and `in_limits` (specs/Progress.antt) and 31 speak of such sessions.
#[derive(Clone, Copy)]
pub struct Progress {
    pub phase: u8,
    pub used: u64,
    pub closed: u64,
    pub committed: u64,
    pub checked: u64,
}

impl Progress {
    // Whether the phase is known, the counts are within their limits, and 3 and 4 take the numbers.
    #[tactic(auto, unfolding(crate::specs::Progress::in_limits))]
    pub fn is_valid(self, numbers: Numbers) -> bool
        ensures { result ≡ in_limits numbers self }
    {
        self.phase <= ENDED_ACCEPTED
            && !sheet_numbers::outside(numbers)
            && !sheet_numbers::unsound(numbers)
            && self.used <= CAPACITY
            && self.closed <= CAPACITY
            && self.committed <= numbers.rounds
            && self.checked <= numbers.rounds
    }

    // Whether all that is valid, in a phase.
    pub fn is_in(self, numbers: Numbers, phase: u8) -> bool
        ensures { result ≡ (in_limits numbers self && eqb self.phase phase) }
    {
        self.is_valid(numbers) && self.phase == phase
    }

    // Whether all that is valid, in a phase, and the round is the one after those that were counted.
    fn is_next(self, numbers: Numbers, phase: u8, counted: u64, round: u64) -> bool
        ensures { result ≡ (in_limits numbers self && (eqb self.phase phase && (eqb round counted && ltb round numbers.rounds))) }
    {
        self.is_in(numbers, phase) && round == counted && round < numbers.rounds
    }

    // Whether the first message of a round is due.
    pub fn may_commit(self, numbers: Numbers, round: u64) -> bool
        ensures { result ≡ (in_limits numbers self && commit_due numbers self round) }
    {
        self.is_next(numbers, CLAIMED, self.committed, round)
    }

    // Whether the seed is due: all rounds are committed.
    pub fn may_draw(self, numbers: Numbers) -> bool
        ensures { result ≡ (in_limits numbers self && draw_due numbers self) }
    {
        self.is_in(numbers, CLAIMED) && self.committed == numbers.rounds
    }

    // Whether the check of a round is due.
    pub fn may_check(self, numbers: Numbers, round: u64) -> bool
        ensures { result ≡ (in_limits numbers self && check_due numbers self round) }
    {
        self.is_next(numbers, DRAWN, self.checked, round)
    }

    // Whether challenges are drawn, and the session has the round.
    pub fn has_challenges(self, numbers: Numbers, round: u64) -> bool
        ensures { result ≡ (in_limits numbers self && challenges_due numbers self round) }
    {
        self.is_valid(numbers) && DRAWN <= self.phase && round < numbers.rounds
    }

    // What a clear starts with.
    pub fn start() -> Progress
        ensures { result ≡ initial }
    {
        Progress {
            phase: GATHERING,
            used: 0,
            closed: 0,
            committed: 0,
            checked: 0,
        }
    }

    // One entry more is used.
    pub fn with_entry(self) -> Progress
        requires { self.used ≤ 4096 }
        ensures { result ≡ with_entry self }
    {
        Progress {
            used: self.used + 1,
            ..self
        }
    }

    // A batch of ballots is closed.
    pub fn with_batch(self, ballots: u64) -> Progress
        ensures { result ≡ with_batch ballots self }
    {
        Progress {
            phase: CLOSED,
            closed: ballots,
            ..self
        }
    }

    // The claims are taken.
    pub fn with_claims(self) -> Progress
        ensures { result ≡ with_claims self }
    {
        Progress {
            phase: CLAIMED,
            ..self
        }
    }

    // The first message of one round more is taken.
    pub fn with_message(self) -> Progress
        requires { self.committed ≤ 128 }
        ensures { result ≡ with_message self }
    {
        Progress {
            committed: self.committed + 1,
            ..self
        }
    }

    // The seed is taken.
    pub fn with_seed(self) -> Progress
        ensures { result ≡ with_seed self }
    {
        Progress {
            phase: DRAWN,
            ..self
        }
    }

    // A round was refused: the session is ended.
    pub fn with_refusal(self) -> Progress
        ensures { result ≡ with_refusal self }
    {
        Progress {
            phase: ENDED_REFUSED,
            ..self
        }
    }

    // A round was accepted: the last one ends the session.
    pub fn with_acceptance(self, rounds: u64) -> Progress
        requires { (self.phase ≡ drawn) × (self.checked < rounds) }
        ensures { result ≡ with_acceptance rounds self }
    {
        let checked = self.checked + 1;
        let phase = if checked == rounds {
            ENDED_ACCEPTED
        } else {
            DRAWN
        };
        Progress {
            phase,
            checked,
            ..self
        }
    }
}
