// An answer of a repetition (document 01, "One round"): how many bytes it has, whether it is in range, and what a check tests of it.
#![tactic(auto)]

pub mod layout;
pub mod testing;
pub mod writing;
