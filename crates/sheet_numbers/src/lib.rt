// The numbers of a parameter sheet (document 01, "Sheet"): their ranges, their conditions, and the bounds that they give.
#![tactic(auto)]

mod bounds;
mod repeats;

pub use bounds::{mask_bound, noise_bound, outside, plain, unknowns, unsound};
pub use repeats::least_repeats;

// The sheet's numbers before a.
#[derive(Clone, Copy)]
pub struct Numbers {
    pub ring: u64,
    pub modulus: u64,
    pub drown: u64,
    pub rounds: u64,
    pub repeats: u64,
}
