// The tests of a call in their order: specs/Calls.antt.
ghost use Rattle.codec.specs.Refusal.{as_reply};
ghost use Rattle.test_stern.specs.Calls.{digests_reply, answer_reply, test_reply, Sifted};

use crate::lent::{material_ranged, material_sized, ring_fits, test_ranged, test_sized};
use codec::{Refusal, Reply};
use stern_answers::layout::answer_length;

// What the call for digests refuses.
pub fn digests_tests(
    keys: &[u8],
    x: &[u8],
    r: &[u8],
    p: &[u8],
    salts: &[u8],
    out: &[u8],
    scratch: &mut [u8],
    n: usize,
    q: u64,
) -> Reply
    ensures { Sifted (digests_reply n q keys.now x.now r.now p.now salts.now out.now
        scratch.old) (as_reply result) scratch.old scratch.new }
{
    if !ring_fits(n, q) {
        return Err(Refusal::ValueOutOfRange);
    }
    if keys.len() != 24 * n {
        return Err(Refusal::WrongLength);
    }
    if !material_sized(x, r, p, salts, out, scratch, 96, n) {
        return Err(Refusal::WrongLength);
    }
    if !ring::in_range(keys, q) {
        return Err(Refusal::ValueOutOfRange);
    }
    material_ranged(x, r, p, scratch, n, q)
}

// What the call for an answer refuses.
pub fn answer_tests(
    challenge: u8,
    x: &[u8],
    r: &[u8],
    p: &[u8],
    salts: &[u8],
    out: &[u8],
    scratch: &mut [u8],
    n: usize,
    q: u64,
) -> Reply
    ensures { Sifted (answer_reply n q challenge x.now r.now p.now salts.now out.now scratch.old) (as_reply result)
        scratch.old scratch.new }
{
    if !ring_fits(n, q) {
        return Err(Refusal::ValueOutOfRange);
    }
    let room = answer_length(n, challenge);
    if !material_sized(x, r, p, salts, out, scratch, room, n) {
        return Err(Refusal::WrongLength);
    }
    material_ranged(x, r, p, scratch, n, q)
}

// What the call for a test refuses, and then the test.
pub fn tested(
    keys: &[u8],
    pairs: &[u8],
    digests: &[u8],
    challenge: u8,
    answer: &[u8],
    place: u32,
    scratch: &mut [u8],
    n: usize,
    q: u64,
) -> Reply
    ensures { Sifted (test_reply n q challenge place keys.now pairs.now digests.now answer.now
        scratch.old) (as_reply result) scratch.old scratch.new }
{
    if !ring_fits(n, q) {
        return Err(Refusal::ValueOutOfRange);
    }
    let long = answer_length(n, challenge);
    if !test_sized(keys, pairs, digests, answer, scratch, long, n) {
        return Err(Refusal::WrongLength);
    }
    if !test_ranged(keys, pairs, challenge, answer, n, q) {
        return Err(Refusal::ValueOutOfRange);
    }
    stern_answers::testing::test_answer(
        scratch, keys, pairs, digests, challenge, answer, place, n, q,
    )
}
