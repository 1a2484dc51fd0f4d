// The step mappings of FIPS 202 on single bits, and that the permutation on lanes is that on bits: specs/Bits.antt and proofs/Lanes.antt.
#![tactic(auto)]
