// 5: u and v of every ballot are below q.
ghost use Rattle.std.specs.Prelude.{◌≡◌, ◌*◌, ◌≤◌, length};
ghost use Rattle.round.specs.Vocabulary.{list, all_below, all, ballot_length};
ghost use Rattle.round.specs.Layout.{u_at};

// Whether they are.
pub fn ballots_in_range(ballots: &[u8], count: usize, n: usize, q: u64) -> bool
    requires { (n ≤ 2048) × (count ≤ 4096) × (length ballots.now ≡ ballot_length n * count) }
    ensures { result ≡ all count (λ j. all_below q (list (2 * n) (u_at n ballots.now j))) }
{
    let size = 4 + 16 * n;
    for j in 0..count {
        let at = size * j;
        if !ring::in_range(&ballots[at + 4..at + size], q) {
            return false;
        }
    }
    true
}
