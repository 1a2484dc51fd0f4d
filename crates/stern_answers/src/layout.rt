// The bytes of an answer: how many they are, and whether they are in range (document 01, "Layouts" and refusal 5).
ghost use Rattle.std.specs.Prelude.{◌≡◌, ◌≤◌, length};
ghost use Rattle.stern.specs.Shortness.{answer_length, in_range};

// How many bytes the answer to a challenge has; a challenge out of range counts as 3.
pub fn answer_length(n: usize, challenge: u8) -> usize
    requires { n ≤ 2048 }
    ensures { result ≡ answer_length n challenge }
{
    if challenge == 1 {
        378 * n + 64
    } else {
        504 * n + 64
    }
}

// Whether the numbers of an answer are in range.
pub fn answer_ranged(challenge: u8, answer: &[u8], n: usize, q: u64) -> bool
    requires { (n ≤ 2048) × (length answer.now ≡ answer_length n challenge) }
    ensures { result ≡ in_range q n challenge answer.now }
{
    if challenge == 1 {
        ring::is_ternary(&answer[0..42 * n]) && ring::in_range(&answer[42 * n..378 * n], q)
    } else {
        ring::in_range(&answer[168 * n..504 * n], q)
    }
}
