// The producer's two calls once the sheet is taken.
#![tactic(auto)]

ghost use Rattle.std.specs.Prelude.{◌≡◌, ◌&&◌, ltb, length, get_or, ◌≤◌};
ghost use Rattle.round.specs.Vocabulary.{all, is_challenge, Loaded, parameters, material_lent, first_in, first_out, second_in};
ghost use Rattle.round.specs.Vocabulary.{second_out};
ghost use Rattle.codec.specs.Refusal.{as_reply};
ghost use Rattle.round_lengths.specs.Calls.{count_of};
ghost use Rattle.round_produce.specs.Internal.{call_tests, ScratchFits, Tested, FirstWritten, SecondWritten};

use codec::{Refusal, Reply};
use round::LentMaterial;
use round_lengths::{count_of, first_sized, material_sized, second_sized};
use sheet_numbers::Numbers;

// ---- What the producer's second call is given beside the material: a side and the challenges.

// Whether every challenge is 1, 2 or 3.
fn challenges_ranged(challenges: &[u8]) -> bool
    ensures { result ≡ all (length challenges.now) (λ i. is_challenge (get_or challenges.now i 0)) }
{
    challenges.iter().all(|c| matches!(c, 1..=3))
}

// Whether the side and the challenges are in range.
fn asked_ranged(side: u64, challenges: &[u8]) -> bool
    ensures { result ≡ (ltb side 2 && all (length challenges.now) (λ i. is_challenge (get_or challenges.now i 0))) }
{
    side < 2 && challenges_ranged(challenges)
}

// ---- What the producer's two calls refuse, in their order, once the sheet is taken.

// The order of both calls, for so many ballots: 1, and then what the material is refused for. `fits` says whether what a call is lent
// beside the material has its lengths, and `asked` whether what it is given beside it is in range.
fn test_call(
    k: Numbers,
    public: &[u8],
    lent: LentMaterial,
    count: usize,
    fits: bool,
    asked: bool,
    scratch: &mut [u8],
) -> Reply
    requires { Loaded k public.now × (count ≡ count_of k.ring lent.ballots.now) × (count ≤ 4096) × ScratchFits fits scratch.old }
    ensures { let x = material_lent lent.entry in
        Tested (call_tests (parameters k public.now) x fits asked) (as_reply result) scratch.old scratch.new }
{
    if !material_sized(k, lent, count) {
        return Err(Refusal::WrongLength);
    }
    if !fits {
        return Err(Refusal::WrongLength);
    }
    round_material::test_material(k, public, lent, count, asked, scratch)
}

// ---- The producer's two calls once the sheet is taken: the tests of the lent slices, and then the work.

// The first call: the first message and the claims.
pub fn produce_first(
    k: Numbers,
    public: &[u8],
    lent: LentMaterial,
    head: &mut [u8],
    shares0: &mut [u8],
    shares1: &mut [u8],
    claims: &mut [u8],
    scratch: &mut [u8],
) -> Reply
    requires { Loaded k public.now }
    ensures { let x = material_lent lent.entry in
        let before = first_in head shares0 shares1 claims scratch in let after = first_out head shares0 shares1 claims scratch in
        FirstWritten (parameters k public.now) x before (as_reply result) after }
{
    let count = count_of(lent.ballots, k.ring as usize);
    if count > 4096 {
        return Err(Refusal::WrongLength);
    }
    let fits = first_sized(k, head, shares0, shares1, claims, scratch, count);
    test_call(k, public, lent, count, fits, true, scratch)?;
    round_write::write_first(k, public, lent, head, shares0, shares1, claims, scratch);
    Ok(())
}

// The second call: the opening of a side, and the answers to challenges.
pub fn produce_second(
    k: Numbers,
    public: &[u8],
    lent: LentMaterial,
    side: u64,
    challenges: &[u8],
    opening: &mut [u8],
    answers: &mut [u8],
    scratch: &mut [u8],
) -> Reply
    requires { Loaded k public.now }
    ensures { let x = material_lent lent.entry in
        let before = second_in opening answers scratch in let after = second_out opening answers scratch in
        SecondWritten (parameters k public.now) x side challenges.now before (as_reply result) after }
{
    let n = k.ring as usize;
    let repeats = k.repeats as usize;
    let count = count_of(lent.ballots, n);
    if count > 4096 {
        return Err(Refusal::WrongLength);
    }
    let fits = second_sized(challenges, opening, answers, scratch, repeats, n);
    let asked = asked_ranged(side, challenges);
    test_call(k, public, lent, count, fits, asked, scratch)?;
    round_write::write_second(k, lent, side, challenges, opening, answers, scratch);
    Ok(())
}
