// The decryption shares of both sides and the claims of a round (document 01, "One round"), as crates/round/specs/Producer.antt says.
#![tactic(auto)]

ghost use Rattle.std.specs.Prelude.{◌≡◌, ◌+◌, ◌*◌, ◌≤◌, ◌<◌, ◌^◌, length};
ghost use Rattle.round.specs.Vocabulary.{part, put, list, Below, coefficient_bytes, poly, slot, ternary, scratch_length, Polynomial, Free};
ghost use Rattle.round.specs.Vocabulary.{Usable, s_in, material_lent};
ghost use Rattle.ring.specs.Poly.{minus, mul};
ghost use Rattle.bgv.specs.Scheme.{plaintext};
ghost use Rattle.round_shares.specs.Internal.{room_now, room_in, room_out, Fits, BallotWritten, masked_product, TwoStand, Masked};
ghost use Rattle.round_shares.specs.Internal.{BallotPlaces, BallotsWritten};

use round::LentMaterial;
use sheet_numbers::Numbers;

// ---- The decryption shares and the claim of one ballot. s u and s0 u are made once each, and s1 u is their difference. What is made from
// secrets is left in scratch.

// Where s0 u stands, and then t0.
const LENT: usize = 16384;

// Where t1 is made.
const OTHER: usize = 32768;

// Where a mask stands.
const MASK: usize = 49152;

// The room of a product.
const ROOM: usize = 65536;

// s u at 0 and s0 u behind it, for ternary bytes s.
fn products(work: &mut [u8], s: &[u8], s0: &[u8], u: &[u8], n: usize, q: u64)
    requires { Polynomial n q s0.now × Polynomial n q u.now × (length s.now ≡ n) × (length work.old ≡ scratch_length) }
    ensures { let u = poly u.now in
        TwoStand q n (mul q n (ternary q s.now) u) (mul q n (poly s0.now) u) work.old work.new }
{
    ring::load_ternary(work, 0, s, q);
    codec::copy(work, LENT, s0);
    ring_product::multiply(work, 0, ROOM, u, n, q);
    ring_product::multiply(work, LENT, ROOM, u, n, q);
}

// Adds p E to what stands in a slot, for a lent mask E, and writes the sum out. The slots before it are kept.
fn write_masked(
    out: &mut [u8],
    at: usize,
    work: &mut [u8],
    from: usize,
    mask: &[u8],
    p: u64,
    n: usize,
    q: u64,
)
    requires { (n ≤ 2048) × (3 ≤ q) × (q < 2 ^ 56) × (length mask.now ≡ 8 * n) × (length work.old ≡ scratch_length)
        × (from + 8 * n ≤ 49152) × Below q n (slot work.old from) × (at + 8 * n ≤ length out.old) × (p < q) }
    ensures { let sum = masked_product q p (slot work.old from) mask.now in
        (out.new ≡ put out.old at (coefficient_bytes q n sum)) × Free work.old work.new
        × (part work.new 0 from ≡ part work.old 0 from) }
{
    ring::load_signed(work, MASK, mask, n, q);
    ring::scale_slot(work, MASK, p, n, q);
    ring::add_slot(work, from, MASK, n, q);
    scratch::write_out(out, at, work, from, n);
}

// t1 and t0, from s u at 0 and s0 u behind it. s u is kept.
fn write_shares(
    shares0: &mut [u8],
    shares1: &mut [u8],
    at: usize,
    work: &mut [u8],
    mask0: &[u8],
    mask1: &[u8],
    p: u64,
    n: usize,
    q: u64,
)
    requires { (n ≤ 2048) × (3 ≤ q) × (q < 2 ^ 56) × (length mask0.now ≡ 8 * n) × (length mask1.now ≡ 8 * n)
        × (length work.old ≡ scratch_length) × Below q n (slot work.old 0) × Below q n (slot work.old 16384)
        × (at + 8 * n ≤ length shares0.old) × (at + 8 * n ≤ length shares1.old) × (p < q) }
    ensures { let w = work.old in let t0 = masked_product q p (slot w 16384) mask0.now in
        let t1 = masked_product q p (minus q (slot w 0) (slot w 16384)) mask1.now in
        (shares0.new ≡ put shares0.old at (coefficient_bytes q n t0))
        × (shares1.new ≡ put shares1.old at (coefficient_bytes q n t1))
        × Free w work.new × (part work.new 0 16384 ≡ part w 0 16384) }
{
    ring::copy_slot(work, OTHER, 0, n);
    ring::subtract_slot(work, OTHER, LENT, n, q);
    write_masked(shares1, at, work, OTHER, mask1, p, n, q);
    write_masked(shares0, at, work, LENT, mask0, p, n, q);
}

// The claim, v - s u centred, by p, from s u at 0.
fn write_claim(claims: &mut [u8], at: usize, work: &mut [u8], v: &[u8], p: u64, n: usize, q: u64)
    requires { Polynomial n q v.now × (length work.old ≡ scratch_length) × Below q n (slot work.old 0)
        × (at + n ≤ length claims.old) × (0 < p) × (p ≤ 251) }
    ensures { let vote = list n (plaintext q p (minus q (poly v.now) (slot work.old 0))) in
        (claims.new ≡ put claims.old at vote) × Free work.old work.new }
{
    ring::scale_slot(work, 0, q - 1, n, q);
    ring::add(work, 0, v, n, q);
    bgv::plain(work, &mut claims[at..at + n], p, n, q);
}

// The shares of both sides and the claim of one ballot, at places of their slices.
fn write_ballot(
    shares0: &mut [u8],
    shares1: &mut [u8],
    at: usize,
    claims: &mut [u8],
    claim: usize,
    work: &mut [u8],
    k: Numbers,
    s: &[u8],
    s0: &[u8],
    u: &[u8],
    v: &[u8],
    mask0: &[u8],
    mask1: &[u8],
)
    requires { Usable k × Polynomial k.ring k.modulus s0.now × Polynomial k.ring k.modulus u.now
        × Polynomial k.ring k.modulus v.now × (length s.now ≡ k.ring) × (length mask0.now ≡ 8 * k.ring)
        × (length mask1.now ≡ 8 * k.ring) × Fits k.ring at claim (room_now shares0 shares1 claims work) }
    ensures { let before = room_in shares0 shares1 claims work in let after = room_out shares0 shares1 claims work in
        let s = ternary k.modulus s.now in
        BallotWritten k s (poly s0.now) (poly u.now) (poly v.now) mask0.now mask1.now at claim before after }
{
    let n = k.ring as usize;
    let p = sheet_numbers::plain(k);
    let q = k.modulus;
    products(work, s, s0, u, n, q);
    write_shares(shares0, shares1, at, work, mask0, mask1, p, n, q);
    write_claim(claims, claim, work, v, p, n, q);
}

// ---- The shares of both sides and the claims of all ballots, each end to end.

// One ballot where it stands, with its masks at the place of its shares.
fn ballot_at(
    shares0: &mut [u8],
    shares1: &mut [u8],
    sent: usize,
    claims: &mut [u8],
    claim: usize,
    work: &mut [u8],
    k: Numbers,
    lent: LentMaterial,
    at: usize,
)
    requires { let n = k.ring in let x = material_lent lent in Usable k × Polynomial n k.modulus x.s0 × (length x.secrets ≡ 14 * n)
        × BallotPlaces k.modulus n at sent x.ballots x.masks0 x.masks1
        × Fits n sent claim (room_now shares0 shares1 claims work) }
    ensures { let n = k.ring in let x = material_lent lent.entry in let s = ternary k.modulus (s_in n x.secrets) in
        let u = slot x.ballots (at + 4) in let v = slot x.ballots (at + 4 + 8 * n) in
        BallotWritten k s (poly x.s0) u v (part x.masks0 sent (8 * n)) (part x.masks1 sent (8 * n)) sent claim
        (room_in shares0 shares1 claims work) (room_out shares0 shares1 claims work) }
{
    let n = k.ring as usize;
    let end = sent + 8 * n;
    write_ballot(
        shares0,
        shares1,
        sent,
        claims,
        claim,
        work,
        k,
        &lent.secrets[0..n],
        lent.s0,
        &lent.ballots[at + 4..at + 4 + 8 * n],
        &lent.ballots[at + 4 + 8 * n..at + 4 + 16 * n],
        &lent.masks0[sent..end],
        &lent.masks1[sent..end],
    );
}

// Every ballot, in order. Scratch is given back zeroed.
pub fn write_ballots(
    shares0: &mut [u8],
    shares1: &mut [u8],
    claims: &mut [u8],
    work: &mut [u8],
    k: Numbers,
    lent: LentMaterial,
    count: usize,
)
    requires { let x = material_lent lent in Usable k × Polynomial k.ring k.modulus x.s0 × (length x.secrets ≡ 14 * k.ring)
        × (count ≤ 4096) × Masked k.modulus k.ring count x.ballots x.masks0 x.masks1 × (length shares0.old ≡ 8 * k.ring * count)
        × (length shares1.old ≡ 8 * k.ring * count) × (length claims.old ≡ k.ring * count)
        × (length work.old ≡ scratch_length) }
    ensures { let before = room_in shares0 shares1 claims work in let after = room_out shares0 shares1 claims work in
        let x = material_lent lent.entry in
        BallotsWritten k count x.secrets x.s0 x.masks0 x.masks1 x.ballots before after }
{
    let n = k.ring as usize;
    for j in 0..count {
        let sent = 8 * n * j;
        let claim = n * j;
        let at = (4 + 16 * n) * j;
        ballot_at(shares0, shares1, sent, claims, claim, work, k, lent, at);
    }
    codec::wipe(work);
}
