// The three demands over the exported calls, stated in specs/Demands.antt and proved in proofs/Demands.antt. There is no code here: the
// claims are of the definitions that the contracts of crates/jackdawnail cite.
#![tactic(auto)]
