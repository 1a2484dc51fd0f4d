// Chi of FIPS 202, section 3.2.4, on a state with some lanes complemented.
ghost use Rattle.std.specs.Prelude.{◌≡◌};
ghost use Rattle.keccak.specs.Internal.{chi_row0, chi_row1, chi_row2, chi_row3, chi_row4};

// Chi on the five rows of a state whose lanes stand complemented as theta, rho and pi leave them: a function a row, since which
// lanes stand complemented before and after differs from row to row, and with it where a complement, `|` or `&` stands.
#[tactic(auto, unfolding(crate::specs::Internal::chi_row0, crate::specs::Steps::complement))]
pub fn chi_row0(r: [u64; 5]) -> [u64; 5]
    ensures { result ≡ chi_row0 r }
{
    [
        r[0] ^ (r[1] | r[2]),
        r[1] ^ (!r[2] | r[3]),
        r[2] ^ (r[3] & r[4]),
        r[3] ^ (r[4] | r[0]),
        r[4] ^ (r[0] & r[1]),
    ]
}

#[tactic(auto, unfolding(crate::specs::Internal::chi_row1, crate::specs::Steps::complement))]
pub fn chi_row1(r: [u64; 5]) -> [u64; 5]
    ensures { result ≡ chi_row1 r }
{
    [
        r[0] ^ (r[1] | r[2]),
        r[1] ^ (r[2] & r[3]),
        r[2] ^ (r[3] | !r[4]),
        r[3] ^ (r[4] | r[0]),
        r[4] ^ (r[0] & r[1]),
    ]
}

#[tactic(auto, unfolding(crate::specs::Internal::chi_row2, crate::specs::Steps::complement))]
pub fn chi_row2(r: [u64; 5]) -> [u64; 5]
    ensures { result ≡ chi_row2 r }
{
    [
        r[0] ^ (r[1] | r[2]),
        r[1] ^ (r[2] & r[3]),
        r[2] ^ (!r[3] & r[4]),
        !r[3] ^ (r[4] | r[0]),
        r[4] ^ (r[0] & r[1]),
    ]
}

#[tactic(auto, unfolding(crate::specs::Internal::chi_row3, crate::specs::Steps::complement))]
pub fn chi_row3(r: [u64; 5]) -> [u64; 5]
    ensures { result ≡ chi_row3 r }
{
    [
        r[0] ^ (r[1] & r[2]),
        r[1] ^ (r[2] | r[3]),
        r[2] ^ (!r[3] | r[4]),
        !r[3] ^ (r[4] & r[0]),
        r[4] ^ (r[0] | r[1]),
    ]
}

#[tactic(auto, unfolding(crate::specs::Internal::chi_row4, crate::specs::Steps::complement))]
pub fn chi_row4(r: [u64; 5]) -> [u64; 5]
    ensures { result ≡ chi_row4 r }
{
    [
        r[0] ^ (!r[1] & r[2]),
        !r[1] ^ (r[2] | r[3]),
        r[2] ^ (r[3] & r[4]),
        r[3] ^ (r[4] | r[0]),
        r[4] ^ (r[0] & r[1]),
    ]
}
