// The lowest digest for which answers open two different strings (document 01, the extractor's paragraph). The strings are compared
// part by part: salts, permutations, equations and vectors. Nothing is hashed. Both of two comparisons are made whatever the first says,
// so `&` joins them.
#![tactic(auto)]

ghost use Rattle.std.specs.Prelude.{◌≡◌, true, false, ◌&&◌, ◌++◌, ◌+◌, ◌*◌, ◌≤◌, ◌<◌, ◌^◌, length, take};
ghost use Rattle.scratch.specs.Vocabulary.{part, put, words, same, all_below, scratch_length};
ghost use Rattle.commitment.specs.Commitment.{keys_of, pair_bytes};
ghost use Rattle.vector.specs.Vector.{vector, ternaries, add, subtract};
ghost use Rattle.vector.specs.Permutation.{entries, apply};
ghost use Rattle.stern.specs.Argument.{string2, string3, one_by2, one_by3};
ghost use Rattle.stern.specs.Shortness.{equations, right_hand_sides, setting, answer1_of, answer2_of, answer3_of};
ghost use Rattle.stern.specs.Internal.{equation_pair};
ghost use Rattle.round_collision.specs.Digests.{number_of_digest, digest_or_none};
ghost use Rattle.round_collision.specs.Internal.{ThreeAnswers, Ground, MaskedVectors, Compared, ComparedBy, lowest_of, Searched};

use stern::equations::equation_pair;

// The three digests of a repetition.
#[derive(Clone, Copy, PartialEq, Eq)]
pub enum Digest {
    First,
    Second,
    Third,
}

impl Digest {
    // Its number in what the extractor answers.
    pub fn number(self) -> u8
        ensures { result ≡ number_of_digest self }
    {
        match self {
            Digest::First => 1,
            Digest::Second => 2,
            Digest::Third => 3,
        }
    }
}

// ---- string 1: P and the equations

// Copies the pair that stands in scratch into 16n bytes of room.
fn keep_pair(room: &mut [u8], work: &[u8], n: usize)
    requires { (16 * n ≤ length room.old) × (49152 + 8 * n ≤ length work.now) }
    ensures { room.new ≡ put room.old 0 (part work.now 0 (8 * n) ++ part work.now 49152 (8 * n)) }
{
    codec::copy(room, 0, &work[0..8 * n]);
    codec::copy(
        room,
        8 * n,
        &work[commitment::MESSAGE..commitment::MESSAGE + 8 * n],
    );
}

// Whether the pair that stands in scratch is the one that was kept.
fn is_kept(room: &[u8], work: &[u8], n: usize) -> bool
    requires { (16 * n ≤ length room.now) × (49152 + 8 * n ≤ length work.now) }
    ensures { result ≡ same (part room.now 0 (16 * n)) (part work.now 0 (8 * n) ++ part work.now 49152 (8 * n)) }
{
    let one = codec::equal(&room[0..8 * n], &work[0..8 * n]);
    let two = codec::equal(
        &room[8 * n..16 * n],
        &work[commitment::MESSAGE..commitment::MESSAGE + 8 * n],
    );
    one & two
}

// Whether two equations of the vector u, less their right-hand sides, are those of the vector r.
fn pairs_agree(
    work: &mut [u8],
    room: &mut [u8],
    k: &[u8],
    c: &[u8],
    u: &[u8],
    r: &[u8],
    first: usize,
    message: usize,
    from: usize,
    n: usize,
    q: u64,
) -> bool
    requires { Ground q n k.now c.now work.old room.old × MaskedVectors q n u.now r.now × (first + 6 * n ≤ 42 * n)
        × (message + n ≤ 42 * n) × (from + 4 * n ≤ 8 * n) }
    ensures { let pair = equation_pair q n (keys_of n k.now) c.now in
        ComparedBy (pair_bytes q n (pair true u.now first message from)) (pair_bytes q n (pair false r.now first message from)) result
        work.old work.new room.old room.new }
{
    equation_pair(work, k, c, true, u, first, message, from, n, q);
    keep_pair(room, work, n);
    equation_pair(work, k, c, false, r, first, message, from, n, q);
    is_kept(room, work, n)
}

// The four equations.
fn equations_agree(
    work: &mut [u8],
    room: &mut [u8],
    k: &[u8],
    c: &[u8],
    u: &[u8],
    r: &[u8],
    n: usize,
    q: u64,
) -> bool
    requires { Ground q n k.now c.now work.old room.old × MaskedVectors q n u.now r.now }
    ensures { ComparedBy (words (subtract q (equations q n (keys_of n k.now) (take (14 * n) (vector u.now)))
        (right_hand_sides q n c.now))) (words (equations q n (keys_of n k.now) (take (14 * n) (vector r.now)))) result work.old
        work.new room.old room.new }
{
    let of_s = pairs_agree(work, room, k, c, u, r, 2 * n, 0, 0, n, q);
    let of_e = pairs_agree(work, room, k, c, u, r, 8 * n, n, 4 * n, n, q);
    of_s & of_e
}

// Whether answers 2 and 3 have one salt 1 and one P.
fn starts_agree(answer2: &[u8], answer3: &[u8], n: usize) -> bool
    requires { (n ≤ 2048) × (length answer2.now ≡ 504 * n + 64) × (length answer3.now ≡ 504 * n + 64) }
    ensures { result ≡ same ((answer2_of n answer2.now).salt1
        ++ (answer2_of n answer2.now).p) ((answer3_of n answer3.now).salt1 ++ (answer3_of n answer3.now).p) }
{
    let salt = 504 * n;
    let salts = codec::equal(&answer2[salt..salt + 32], &answer3[salt..salt + 32]);
    let permutations = codec::equal(&answer2[0..168 * n], &answer3[0..168 * n]);
    salts & permutations
}

// String 1 of answers 2 and 3.
fn first_agrees(
    work: &mut [u8],
    room: &mut [u8],
    k: &[u8],
    c: &[u8],
    answer2: &[u8],
    answer3: &[u8],
    n: usize,
    q: u64,
) -> bool
    requires { Ground q n k.now c.now work.old room.old × (length answer2.now ≡ 504 * n + 64)
        × (length answer3.now ≡ 504 * n + 64) × (all_below q (vector (answer2_of n answer2.now).u) ≡ true)
        × (all_below q (vector (answer3_of n answer3.now).r) ≡ true) }
    ensures { let s = setting q n (keys_of n k.now) c.now in
        ComparedBy (one_by2 s (answer2_of n answer2.now)) (one_by3 s (answer3_of n answer3.now)) result work.old work.new
        room.old room.new }
{
    let starts = starts_agree(answer2, answer3, n);
    let rest = equations_agree(
        work,
        room,
        k,
        c,
        &answer2[168 * n..504 * n],
        &answer3[168 * n..504 * n],
        n,
        q,
    );
    starts & rest
}

// ---- string 2: P(R)

// Whether the bytes t are those of a vector in the order of the permutation p.
fn is_gathered(work: &mut [u8], p: &[u8], x: &[u8], t: &[u8], n: usize) -> bool
    requires { (n ≤ 2048) × (length work.old ≡ scratch_length) × (length p.now ≡ 168 * n) × (length x.now ≡ 336 * n)
        × (all_below (42 * n) (entries p.now) ≡ true) }
    ensures { Compared t.now (words (apply (entries p.now) (vector x.now))) result work.old work.new }
{
    vector::gather(work, 0, p, x, 42 * n);
    codec::equal(t, &work[0..336 * n])
}

// String 2 of answers 1 and 3.
fn second_agrees(work: &mut [u8], answer1: &[u8], answer3: &[u8], n: usize) -> bool
    requires { (n ≤ 2048) × (length work.old ≡ scratch_length) × (length answer1.now ≡ 378 * n + 64)
        × (length answer3.now ≡ 504 * n + 64) × (all_below (42 * n) (entries (answer3_of n answer3.now).p) ≡ true) }
    ensures { let one = answer1_of n answer1.now in let three = answer3_of n answer3.now in
        Compared (string2 one.salt2 one.t) (string2 three.salt2 (words (apply (entries three.p) (vector three.r)))) result
        work.old work.new }
{
    let one = 378 * n;
    let three = 504 * n + 32;
    let salts = codec::equal(&answer1[one..one + 32], &answer3[three..three + 32]);
    let vectors = is_gathered(
        work,
        &answer3[0..168 * n],
        &answer3[168 * n..504 * n],
        &answer1[42 * n..378 * n],
        n,
    );
    salts & vectors
}

// ---- string 3: P(extended + R)

// Whether the numbers of ternary bytes w plus t are those of u in the order of the permutation p.
fn sums_agree(w: &[u8], t: &[u8], p: &[u8], u: &[u8], n: usize, q: u64) -> bool
    requires lt_q { (1 < q) × (q < 2 ^ 56) × (length w.now ≡ n) × (length t.now ≡ 8 * n) × (length p.now ≡ 4 * n)
        × (length u.now ≡ 8 * n) }
    requires t_value { (all_below q (vector t.now) ≡ true) × (all_below q (vector u.now) ≡ true) × (all_below n (entries p.now) ≡ true) }
    ensures { result ≡ same (words (add q (ternaries q w.now) (vector t.now)))
        (words (apply (entries p.now) (vector u.now))) }
{
    for i in 0..n {
        let x = ring::from_ternary(w[i], q);
        let sum = modular::add(x, vector::component(t, i), q);
        if sum != vector::component(u, vector::entry(p, i)) {
            return false;
        }
    }
    true
}

// String 3 of answers 1 and 2.
fn third_agrees(answer1: &[u8], answer2: &[u8], n: usize, q: u64) -> bool
    requires n_bound { (n ≤ 2048) × (1 < q) × (q < 2 ^ 56) × (length answer1.now ≡ 378 * n + 64) × (length answer2.now ≡ 504 * n + 64) }
    requires answer1_value { (all_below q (vector (answer1_of n answer1.now).t) ≡ true) × (all_below q (vector (answer2_of n answer2.now).u) ≡ true)
        × (all_below (42 * n) (entries (answer2_of n answer2.now).p) ≡ true) }
    ensures { let one = answer1_of n answer1.now in let two = answer2_of n answer2.now in
        result ≡ same (string3 one.salt3 (add q (ternaries q one.w) (vector one.t)))
        (string3 two.salt3 (apply (entries two.p) (vector two.u))) }
{
    let one = 378 * n + 32;
    let two = 504 * n + 32;
    let salts = codec::equal(&answer1[one..one + 32], &answer2[two..two + 32]);
    let sums = sums_agree(
        &answer1[0..42 * n],
        &answer1[42 * n..378 * n],
        &answer2[0..168 * n],
        &answer2[168 * n..504 * n],
        42 * n,
        q,
    );
    salts & sums
}

// ---- all three

// The lowest of three comparisons that failed.
fn lowest(one: bool, two: bool, three: bool) -> Option<Digest>
    ensures { digest_or_none result ≡ lowest_of one two three }
{
    if !one {
        Some(Digest::First)
    } else if !two {
        Some(Digest::Second)
    } else if !three {
        Some(Digest::Third)
    } else {
        None
    }
}

// The lowest digest whose two strings differ; with scratch and the room zeroed. The first pair of equations is kept in the room for the
// second to be compared with.
pub fn collision(
    work: &mut [u8],
    room: &mut [u8],
    k: &[u8],
    c: &[u8],
    answer1: &[u8],
    answer2: &[u8],
    answer3: &[u8],
    n: usize,
    q: u64,
) -> Option<Digest>
    requires { Ground q n k.now c.now work.old room.old × ThreeAnswers q n answer1.now answer2.now answer3.now }
    ensures { let s = setting q n (keys_of n k.now) c.now in
        Searched s (answer1_of n answer1.now) (answer2_of n answer2.now) (answer3_of n answer3.now) (digest_or_none result) work.old
        work.new room.old room.new }
{
    let one = first_agrees(work, room, k, c, answer2, answer3, n, q);
    let two = second_agrees(work, answer1, answer3, n);
    let three = third_agrees(answer1, answer2, n, q);
    codec::wipe(work);
    codec::wipe(room);
    lowest(one, two, three)
}
