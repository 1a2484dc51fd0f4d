// One round: what its producer writes, what a check tests and what an extractor finds (document 01, "One round"; document 000, section
// 6.1): specs/.
#![tactic(auto)]

// What the producer of a round is lent in both calls: the secrets, s0 and e0, the masks of both sides, what is drawn for the repetitions,
// and the ballots.
#[derive(Clone, Copy)]
pub struct LentMaterial<'a> {
    pub secrets: &'a [u8],
    pub s0: &'a [u8],
    pub e0: &'a [u8],
    pub masks0: &'a [u8],
    pub masks1: &'a [u8],
    pub vectors: &'a [u8],
    pub permutations: &'a [u8],
    pub salts: &'a [u8],
    pub ballots: &'a [u8],
}
