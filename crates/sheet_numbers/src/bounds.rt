// The bounds that a sheet's numbers give, and the refusals 3 and 4.
ghost use Rattle.std.specs.Prelude.{◌≡◌, ◌^◌, ◌≤◌, ◌||◌, not, ltb, false};
ghost use Rattle.sheet_numbers.specs.Bounds as def;
ghost use Rattle.sheet_numbers.specs.Plain as here;
ghost use Rattle.sheet_numbers.specs.Rules as rule;

use crate::Numbers;
use crate::repeats::least_repeats;

// The plaintext modulus p.
#[tactic(auto, unfolding(crate::specs::Plain::plain))]
pub fn plain(k: Numbers) -> u64
    ensures { result ≡ here.plain k }
{
    2
}

// 2^d.
pub fn power(d: u64) -> u64
    requires { d ≤ 40 }
    ensures { (result ≡ 2 ^ d) × (result ≤ 1099511627776) }
{
    1u64 << d
}

// The noise bound D.
pub fn noise_bound(k: Numbers) -> u64
    requires { (k.ring ≤ 2048) × (2 ≤ here.plain k) × (here.plain k ≤ 251) }
    ensures { (result ≡ here.noise_bound_of k) × (result ≤ 1028597) }
{
    let p = plain(k);
    p * (2 * k.ring + 1) + p - 1
}

// The mask bound B.
pub fn mask_bound(k: Numbers) -> u64
    requires { (k.ring ≤ 2048) × (k.drown ≤ 40) × (2 ≤ here.plain k) × (here.plain k ≤ 251) }
    ensures { result ≡ here.mask_bound_of k }
{
    power(k.drown) * noise_bound(k) / (2 * plain(k))
}

// The unknowns of the shortness argument, L.
pub fn unknowns(n: u64) -> u64
    requires { n ≤ 2048 }
    ensures { result ≡ def.unknown_count n }
{
    14 * n
}

// A ring outside its range, or no power of two.
#[tactic(auto, using(crate::proofs::Ranges::divides))]
fn ring_outside(n: u64) -> bool
    ensures { result ≡ (ltb n 4 || (ltb 2048 n || not (def.power 12 n))) }
{
    n < 4 || 2048 < n || 2048 % n != 0
}

// Refusal 3: a number outside its range, or a ring that is no power of two.
#[tactic(auto, unfolding(crate::specs::Rules::outside, crate::specs::Rules::any))]
pub fn outside(k: Numbers) -> bool
    ensures { result ≡ rule.outside k }
{
    ring_outside(k.ring)
        || !(3..72057594037927936).contains(&k.modulus)
        || 40 < k.drown
        || !(1..=128).contains(&k.rounds)
        || !(least_repeats(k.rounds)..=256).contains(&k.repeats)
}

// Refusal 4: 2N does not divide q - 1, or (1 + 2^d) D is not below (q - 1)/2.
#[tactic(auto, unfolding(crate::specs::Rules::unsound, crate::specs::Rules::any))]
pub fn unsound(k: Numbers) -> bool
    requires { rule.outside k ≡ false }
    ensures { result ≡ rule.unsound k }
{
    (k.modulus - 1) % (2 * k.ring) != 0
        || (k.modulus - 1) / 2 <= (1 + power(k.drown)) * noise_bound(k)
}
