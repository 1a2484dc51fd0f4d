// What lists of a session's steps come to (the second and the third demand): specs/Runs.antt, specs/Claims.antt and the proofs.
#![tactic(auto)]
