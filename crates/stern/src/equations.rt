// The four equations of the shortness argument, two at a time: the pair made from the summed r of two sides and a message, which stand
// in a lent vector, is left in scratch, where a commitment leaves it.
ghost use Rattle.std.specs.Prelude.{◌≡◌, true, ◌+◌, ◌*◌, ◌/◌, ◌≤◌, ◌<◌, ◌^◌, length};
ghost use Rattle.scratch.specs.Vocabulary.{plus, minus, Below, poly, slot, scratch_length};
ghost use Rattle.ring.specs.Internal.{store};
ghost use Rattle.commitment.specs.Commitment.{keys_of};
ghost use Rattle.commitment.specs.Internal.{PublicKeys, PairInSlots};
ghost use Rattle.stern.specs.Internal.{words_at, summed_pair, equation_pair};

const TWO: usize = 16384;

const THREE: usize = 32768;

// The sum of two polynomials of a lent vector into a slot.
fn load_sum(work: &mut [u8], at: usize, x: &[u8], from: usize, other: usize, n: usize, q: u64)
    requires { (3 ≤ q) × (q < 2 ^ 56) × (at + 8 * n ≤ length work.old) × (8 * from + 8 * n ≤ length x.now)
        × (8 * other + 8 * n ≤ length x.now) × Below q (length x.now / 8) (poly x.now) }
    ensures { work.new ≡ store q n work.old at
        (plus (words_at x.now from) (words_at x.now other)) }
{
    codec::copy(work, at, &x[8 * from..8 * from + 8 * n]);
    ring::add(work, at, &x[8 * other..8 * other + 8 * n], n, q);
}

// The pair made from the message at one word and the summed r at another.
fn sums(work: &mut [u8], k: &[u8], x: &[u8], first: usize, message: usize, n: usize, q: u64)
    requires { PublicKeys n q k.now × (length work.old ≡ scratch_length) × (8 * first + 48 * n ≤ length x.now)
        × (8 * message + 8 * n ≤ length x.now) × Below q (length x.now / 8) (poly x.now) }
    ensures { PairInSlots q n (summed_pair q n (keys_of n k.now) x.now first message) work.old
        work.new }
{
    load_sum(work, 0, x, first, first + 3 * n, n, q);
    load_sum(work, TWO, x, first + n, first + 4 * n, n, q);
    load_sum(work, THREE, x, first + 2 * n, first + 5 * n, n, q);
    codec::copy(
        work,
        commitment::MESSAGE,
        &x[8 * message..8 * message + 8 * n],
    );
    commitment::commit(work, k, n, q);
}

// Subtracts two polynomials of a lent vector from what stands in a slot.
fn subtract_two(work: &mut [u8], at: usize, c: &[u8], from: usize, other: usize, n: usize, q: u64)
    requires { (3 ≤ q) × (q < 2 ^ 56) × (at + 8 * n ≤ length work.old) × Below q n (slot work.old at)
        × (8 * from + 8 * n ≤ length c.now) × (8 * other + 8 * n ≤ length c.now) × Below q (length c.now / 8) (poly c.now) }
    ensures { work.new ≡ store q n work.old at
        (minus q (minus q (slot work.old at) (words_at c.now from)) (words_at c.now other)) }
{
    ring::subtract(work, at, &c[8 * from..8 * from + 8 * n], n, q);
    ring::subtract(work, at, &c[8 * other..8 * other + 8 * n], n, q);
}

// Two equations of a vector, with their right-hand sides subtracted or not.
pub fn equation_pair(
    work: &mut [u8],
    k: &[u8],
    c: &[u8],
    less: bool,
    x: &[u8],
    first: usize,
    message: usize,
    from: usize,
    n: usize,
    q: u64,
)
    requires public_keys { PublicKeys n q k.now × (length work.old ≡ scratch_length) × (8 * first + 48 * n ≤ length x.now)
        × (8 * message + 8 * n ≤ length x.now) × Below q (length x.now / 8) (poly x.now) }
    requires n_in_bounds { less ≡ true → (8 * from + 32 * n ≤ length c.now) × Below q (length c.now / 8) (poly c.now) }
    ensures { PairInSlots q n (equation_pair q n (keys_of n k.now) c.now less
        x.now first message from) work.old work.new }
{
    sums(work, k, x, first, message, n, q);
    if less {
        subtract_two(work, 0, c, from, from + 2 * n, n, q);
        subtract_two(work, commitment::MESSAGE, c, from + n, from + 3 * n, n, q);
    }
}
