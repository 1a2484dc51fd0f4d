// The tests of an opened half of the key (6, 7, 8) and of the ballots by it and by the opened shares (5, 12, 13), in a check, an
// extraction and for the producer.
#![tactic(auto)]

pub mod ballots;
pub mod halves;
pub mod opened;
pub mod ranges;
pub mod repetitions;
mod votes;
