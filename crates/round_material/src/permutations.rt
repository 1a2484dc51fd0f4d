// 9: each P is a permutation, the lowest repetition first.
ghost use Rattle.std.specs.Prelude.{◌≡◌, ◌*◌, length};
ghost use Rattle.round.specs.Vocabulary.{first, scratch_length, Free, permutation_tests, Usable};
ghost use Rattle.codec.specs.Refusal.{as_reply};

use codec::{Refusal, Reply};
use sheet_numbers::Numbers;

// The permutation of every repetition, in order.
pub fn test_permutations(work: &mut [u8], k: Numbers, permutations: &[u8]) -> Reply
    requires { Usable k × (length work.old ≡ scratch_length) × (length permutations.now ≡ 168 * k.ring * k.repeats) }
    ensures { (as_reply result ≡ first (permutation_tests k.ring k.repeats permutations.now))
        × Free work.old work.new }
{
    let n = k.ring as usize;
    for i in 0..k.repeats as usize {
        let at = 168 * n * i;
        let end = at + 168 * n;
        if !vector::tests::is_permutation(&permutations[at..end], work, 0, 42 * n) {
            return Err(Refusal::NoPermutation(i as u32));
        }
    }
    Ok(())
}
