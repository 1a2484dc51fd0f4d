// Calls over `stern` for tests and benchmarks outside the proof: plain numbers and byte slices, nothing asked of the caller.
// Each answers 0 where it is taken, and else document 01's number, with the place above the low byte: 1 for a slice of wrong length, 5
// for a number out of range, 9 for a P that is no permutation, and what the tests of an answer refuse. A refusal leaves the output as
// it was. Scratch is zeroed whole, unless the refusal is 1.
// In C a slice is `uint8_t *, size_t`, and `const` where it is lent to be read.
#![tactic(auto)]

mod lent;
mod orders;

ghost use Rattle.commitment.specs.Commitment.{keys_of};
ghost use Rattle.stern.specs.Shortness.{drawn_of, honest_digests, honest_answer};
ghost use Rattle.test_stern.specs.Calls.{digests_reply, answer_reply, test_reply, CallAnswered, CallTold};

// uint64_t stern_digests(const uint8_t *keys, size_t, const uint8_t *x, size_t, const uint8_t *r, size_t, const uint8_t *p, size_t, const
// uint8_t *salts, size_t,
//     uint8_t *out, size_t, uint8_t *scratch, size_t, size_t n, uint64_t q);
// 24n bytes of keys, 14n unknowns, 336n bytes of R, 168n of P, 96 of salts; the three digests into 96 bytes.
#[unsafe(no_mangle)]
pub extern "C" fn stern_digests(
    keys: &[u8],
    x: &[u8],
    r: &[u8],
    p: &[u8],
    salts: &[u8],
    out: &mut [u8],
    scratch: &mut [u8],
    n: usize,
    q: u64,
) -> u64
    ensures { let is = digests_reply n q keys.now x.now r.now p.now salts.now out.old scratch.old in
        let writes = honest_digests q n (keys_of n keys.now) x.now (drawn_of p.now r.now salts.now) in
        CallAnswered is writes result out.old out.new scratch.old scratch.new }
{
    match orders::digests_tests(keys, x, r, p, salts, out, scratch, n, q) {
        Ok(()) => {
            stern_answers::writing::write_digests(out, 0, scratch, keys, x, r, p, salts, n, q);
            let taken: codec::Reply = Ok(());
            codec::pack(scratch::finish(taken, scratch))
        }
        Err(why) => codec::pack(scratch::finish(Err(why), scratch)),
    }
}

// uint64_t stern_answer(uint8_t challenge, const uint8_t *x, size_t, const uint8_t *r, size_t, const uint8_t *p, size_t, const uint8_t
// *salts, size_t,
//     uint8_t *out, size_t, uint8_t *scratch, size_t, size_t n, uint64_t q);
// Answer 1 into 378n + 64 bytes, answers 2 and 3 into 504n + 64; a challenge out of range counts as 3.
#[unsafe(no_mangle)]
pub extern "C" fn stern_answer(
    challenge: u8,
    x: &[u8],
    r: &[u8],
    p: &[u8],
    salts: &[u8],
    out: &mut [u8],
    scratch: &mut [u8],
    n: usize,
    q: u64,
) -> u64
    ensures { let is = answer_reply n q challenge x.now r.now p.now salts.now out.old scratch.old in
        let writes = honest_answer q n x.now (drawn_of p.now r.now salts.now) challenge in
        CallAnswered is writes result out.old out.new scratch.old scratch.new }
{
    match orders::answer_tests(challenge, x, r, p, salts, out, scratch, n, q) {
        Ok(()) => {
            stern_answers::writing::write_answer(out, challenge, x, r, p, salts, n, q);
            let taken: codec::Reply = Ok(());
            codec::pack(scratch::finish(taken, scratch))
        }
        Err(why) => codec::pack(scratch::finish(Err(why), scratch)),
    }
}

// uint64_t stern_test(const uint8_t *keys, size_t, const uint8_t *pairs, size_t, const uint8_t *digests, size_t, uint8_t challenge, const
// uint8_t *answer, size_t,
//     uint32_t place, uint8_t *scratch, size_t, size_t n, uint64_t q);
// 24n bytes of keys, 64n of committed pairs, 96 of digests; place is what a refusal 9, 10 or 11 names.
#[unsafe(no_mangle)]
pub extern "C" fn stern_test(
    keys: &[u8],
    pairs: &[u8],
    digests: &[u8],
    challenge: u8,
    answer: &[u8],
    place: u32,
    scratch: &mut [u8],
    n: usize,
    q: u64,
) -> u64
    ensures { let is = test_reply n q challenge place keys.now pairs.now digests.now answer.now scratch.old in
        CallTold is result scratch.old scratch.new }
{
    let reply = orders::tested(
        keys, pairs, digests, challenge, answer, place, scratch, n, q,
    );
    codec::pack(scratch::finish(reply, scratch))
}
