// The tests of an opened half of the key: 6, 7, 8. Scratch is given back zeroed.
ghost use Rattle.std.specs.Prelude.{◌≡◌, ◌&&◌, ◌*◌, length};
ghost use Rattle.round.specs.Vocabulary.{same, zeros, modulo, poly, encode, plain, Usable, scratch_length, Polynomial};
ghost use Rattle.round.specs.Vocabulary.{keys_of, three_of, PublicKeys};
ghost use Rattle.ring.specs.Poly.{plus};
ghost use Rattle.bgv.specs.Scheme.{key};
ghost use Rattle.commitment.specs.Commitment.{opens};

use sheet_numbers::Numbers;

// Whether two lent halves of the key add to b.
pub fn adds(work: &mut [u8], b0: &[u8], b1: &[u8], b: &[u8], n: usize, q: u64) -> bool
    requires { Polynomial n q b0.now × Polynomial n q b1.now × Polynomial n q b.now × (length work.old ≡ scratch_length) }
    ensures { (result ≡ same (encode n (modulo q (plus (poly b0.now) (poly b1.now)))) (encode n (modulo q (poly b.now))))
        × (work.new ≡ zeros (length work.old)) }
{
    codec::copy(work, 0, b0);
    ring::add(work, 0, b1, n, q);
    let added = codec::equal(&work[0..8 * n], b);
    codec::wipe(work);
    added
}

// Whether a lent half of the key is a s + p e.
pub fn is_key(work: &mut [u8], k: Numbers, a: &[u8], half: &[u8], s: &[u8], e: &[u8]) -> bool
    requires { Usable k × Polynomial k.ring k.modulus a.now × Polynomial k.ring k.modulus s.now
        × Polynomial k.ring k.modulus e.now × (length work.old ≡ scratch_length) }
    ensures { (result ≡ same half.now (encode k.ring
        (modulo k.modulus (key k.modulus k.ring (plain k) (poly a.now) (poly s.now) (poly e.now)))))
        × (work.new ≡ zeros (length work.old)) }
{
    let n = k.ring as usize;
    bgv::noisy_lent(work, a, s, e, sheet_numbers::plain(k), n, k.modulus);
    let opened = codec::equal(half, &work[0..8 * n]);
    codec::wipe(work);
    opened
}

// Whether two lent pairs are those of s_i and e_i with the r of an opening.
pub fn opens_pairs(
    work: &mut [u8],
    k: &[u8],
    first: &[u8],
    second: &[u8],
    s: &[u8],
    e: &[u8],
    rs: &[u8],
    re: &[u8],
    n: usize,
    q: u64,
) -> bool
    requires { PublicKeys n q k.now × Polynomial n q s.now × Polynomial n q e.now × (length rs.now ≡ 3 * n)
        × (length re.now ≡ 3 * n) × (length work.old ≡ scratch_length) × (length first.now ≡ 16 * n)
        × (length second.now ≡ 16 * n) }
    ensures { (result ≡ (opens q n (keys_of n k.now) first.now (three_of q n rs.now) (poly s.now)
        && opens q n (keys_of n k.now) second.now (three_of q n re.now) (poly e.now)))
        × (work.new ≡ zeros (length work.old)) }
{
    if commitment::opens(work, k, first, s, rs, n, q) {
        let both = commitment::opens(work, k, second, e, re, n, q);
        codec::wipe(work);
        return both;
    }
    codec::wipe(work);
    false
}
