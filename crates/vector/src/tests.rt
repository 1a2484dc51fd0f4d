// Tests of lent bytes: whether they are a permutation, and whether they are ternary with as many of each
// (crates/vector/specs/Permutation.antt).
ghost use Rattle.std.specs.Prelude.{◌≡◌, ◌+◌, ◌*◌, ◌≤◌, length};
ghost use Rattle.codec.specs.Bytes.{part, put, zeros};
ghost use Rattle.vector.specs.Permutation.{entries, permutes, balanced};

// Whether n entries are each of 0 .. n - 1 once. Each index that is met is marked in n bytes of scratch, which are zero before.
fn mark(p: &[u8], work: &mut [u8], at: usize, n: usize) -> bool
    requires { (length p.now ≡ 4 * n) × (at + n ≤ length work.old) × (part work.old at n ≡ zeros n) }
    ensures { (result ≡ permutes n (entries p.now)) × (put work.new at (zeros n) ≡ work.old) }
{
    for i in 0..n {
        let x = crate::entry(p, i);
        if n <= x || work[at + x] != 0 {
            return false;
        }
        work[at + x] = 1;
    }
    true
}

// The same with n bytes of scratch that hold anything before, and zeros after.
pub fn is_permutation(p: &[u8], work: &mut [u8], at: usize, n: usize) -> bool
    requires { (length p.now ≡ 4 * n) × (at + n ≤ length work.old) }
    ensures { (result ≡ permutes n (entries p.now)) × (work.new ≡ put work.old at (zeros n)) }
{
    crate::clear(work, at, n);
    let answer = mark(p, work, at, n);
    crate::clear(work, at, n);
    answer
}

// Whether w is 3l ternary bytes, l of each.
pub fn is_balanced(w: &[u8], l: usize) -> bool
    ensures { result ≡ balanced l w.now }
{
    w.len() % 3 == 0
        && w.len() / 3 == l
        && ring::count_of(w, 2) == l
        && ring::count_of(w, 0) == l
        && ring::count_of(w, 1) == l
}
