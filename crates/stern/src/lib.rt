// Stern's shortness argument of a round (document 01, "One round"; document 000, section 5.5): specs/Argument.antt and
// specs/Shortness.antt. Here are the equations and the digests; `stern_answers` writes what is answered, and tests it.
#![tactic(auto)]

pub mod digests;
pub mod equations;
