// 12: the masks of both sides, the lowest ballot first.
ghost use Rattle.std.specs.Prelude.{◌≡◌, ◌&&◌, ◌*◌, ◌≤◌, length};
ghost use Rattle.round.specs.Vocabulary.{first, mask_bound_of, within, mask_tests, Usable};
ghost use Rattle.codec.specs.Refusal.{as_reply};
ghost use Rattle.bgv.specs.Scheme.{lent_mask};

use codec::{Refusal, Reply};
use sheet_numbers::Numbers;

// Whether every number of two lent masks is at most a bound in size.
fn both_bounded(mask0: &[u8], mask1: &[u8], bound: u64, n: usize) -> bool
    requires { (8 * n ≤ length mask0.now) × (8 * n ≤ length mask1.now) }
    ensures { result ≡ (within bound n (lent_mask mask0.now) && within bound n (lent_mask mask1.now)) }
{
    bgv::bounded(mask0, bound, n) && bgv::bounded(mask1, bound, n)
}

// The masks of every ballot, in order.
pub fn test_masks(k: Numbers, masks0: &[u8], masks1: &[u8], count: usize) -> Reply
    requires { Usable k × (count ≤ 4096) × (length masks0.now ≡ 8 * k.ring * count) × (length masks1.now ≡ 8 * k.ring * count) }
    ensures { as_reply result ≡ first (mask_tests k.ring (mask_bound_of k) count masks0.now masks1.now) }
{
    let n = k.ring as usize;
    let bound = sheet_numbers::mask_bound(k);
    for j in 0..count {
        let at = 8 * n * j;
        let end = at + 8 * n;
        if !both_bounded(&masks0[at..end], &masks1[at..end], bound, n) {
            return Err(Refusal::MaskTooLarge(j as u32));
        }
    }
    Ok(())
}
