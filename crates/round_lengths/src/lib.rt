// Whether the slices that are lent to the calls of a round have their lengths: specs/Calls.antt. The producer, the check and the
// extractor share them.
#![tactic(auto)]

ghost use Rattle.std.specs.Prelude.{◌≡◌, ◌+◌, ◌*◌, ◌/◌, ◌≤◌, length};
ghost use Rattle.round.specs.Vocabulary.{answers_length, material_lent, Usable};
ghost use Rattle.round.specs.Writes.{first_room};
ghost use Rattle.round_lengths.specs.Calls.{count_of, material_sized, first_sized, second_sized, message_sized, openings_sized};

use round::LentMaterial;
use sheet_numbers::Numbers;

// How many ballots stand in a slice.
pub fn count_of(ballots: &[u8], n: usize) -> usize
    requires { n ≤ 2048 }
    ensures { result ≡ count_of n ballots.now }
{
    ballots.len() / (4 + 16 * n)
}

// The material of the producer.
#[tactic(auto, unfolding(codec::specs::Bytes::same, crate::specs::Calls::material_sized))]
pub fn material_sized(k: Numbers, lent: LentMaterial, count: usize) -> bool
    requires { Usable k × (count ≤ 4096) }
    ensures { result ≡ material_sized k.ring k.repeats count (material_lent lent.entry) }
{
    let n = k.ring as usize;
    let repeats = k.repeats as usize;
    let share = 8 * n * count;
    let sent = (4 + 16 * n) * count;
    scratch::sized(
        [
            lent.secrets.len(),
            lent.s0.len(),
            lent.e0.len(),
            lent.masks0.len(),
            lent.masks1.len(),
            lent.ballots.len(),
        ],
        [14 * n, 8 * n, 8 * n, share, share, sent],
    ) && scratch::sized(
        [
            lent.vectors.len(),
            lent.permutations.len(),
            lent.salts.len(),
            0,
            0,
            0,
        ],
        [336 * n * repeats, 168 * n * repeats, 96 * repeats, 0, 0, 0],
    )
}

// What the producer's first call writes, and scratch.
#[tactic(auto, unfolding(codec::specs::Bytes::same, crate::specs::Calls::first_sized))]
pub fn first_sized(
    k: Numbers,
    head: &[u8],
    shares0: &[u8],
    shares1: &[u8],
    claims: &[u8],
    scratch: &[u8],
    count: usize,
) -> bool
    requires { Usable k × (count ≤ 4096) }
    ensures { result ≡ first_sized k.ring k.repeats count (first_room head.now shares0.now shares1.now claims.now scratch.now) }
{
    let n = k.ring as usize;
    let repeats = k.repeats as usize;
    let share = 8 * n * count;
    scratch::sized(
        [
            head.len(),
            shares0.len(),
            shares1.len(),
            claims.len(),
            scratch.len(),
            0,
        ],
        [
            80 * n + 96 * repeats,
            share,
            share,
            n * count,
            scratch::SCRATCH,
            0,
        ],
    )
}

// The length of the answers to challenges, end to end.
fn answers_length(challenges: &[u8], n: usize) -> usize
    requires { (n ≤ 2048) × (length challenges.now ≤ 256) }
    ensures { result ≡ answers_length n challenges.now }
{
    let mut sum = 0;
    for challenge in challenges {
        sum += stern_answers::layout::answer_length(n, *challenge);
    }
    sum
}

// Challenges, an opening, the answers, and scratch.
#[tactic(auto, unfolding(codec::specs::Bytes::same, crate::specs::Calls::second_sized))]
pub fn second_sized(
    challenges: &[u8],
    opening: &[u8],
    answers: &[u8],
    scratch: &[u8],
    repeats: usize,
    n: usize,
) -> bool
    requires { (n ≤ 2048) × (repeats ≤ 256) }
    ensures { result ≡ second_sized n repeats challenges.now opening.now answers.now scratch.now }
{
    challenges.len() == repeats
        && scratch::sized(
            [opening.len(), answers.len(), scratch.len(), 0, 0, 0],
            [
                22 * n,
                answers_length(challenges, n),
                scratch::SCRATCH,
                0,
                0,
                0,
            ],
        )
}

// The first message, the ballots and the claims.
#[tactic(auto, unfolding(codec::specs::Bytes::same, crate::specs::Calls::message_sized))]
pub fn message_sized(
    head: &[u8],
    shares0: &[u8],
    shares1: &[u8],
    ballots: &[u8],
    claims: &[u8],
    count: usize,
    repeats: usize,
    n: usize,
) -> bool
    requires { (n ≤ 2048) × (count ≤ 4096) × (repeats ≤ 256) }
    ensures { result ≡ message_sized n repeats count head.now shares0.now shares1.now ballots.now claims.now }
{
    let share = 8 * n * count;
    scratch::sized(
        [
            head.len(),
            shares0.len(),
            shares1.len(),
            ballots.len(),
            claims.len(),
            0,
        ],
        [
            80 * n + 96 * repeats,
            share,
            share,
            (4 + 16 * n) * count,
            n * count,
            0,
        ],
    )
}

// Both openings, the three answers, the extractor's output, and scratch.
#[tactic(auto, unfolding(codec::specs::Bytes::same, crate::specs::Calls::openings_sized))]
pub fn openings_sized(
    opening0: &[u8],
    opening1: &[u8],
    answer1: &[u8],
    answer2: &[u8],
    answer3: &[u8],
    out: &[u8],
    scratch: &[u8],
    n: usize,
) -> bool
    requires { n ≤ 2048 }
    ensures { result ≡ openings_sized n opening0.now opening1.now answer1.now answer2.now answer3.now
        out.now scratch.now }
{
    scratch::sized(
        [
            opening0.len(),
            opening1.len(),
            out.len(),
            scratch.len(),
            0,
            0,
        ],
        [22 * n, 22 * n, 24 * n, scratch::SCRATCH, 0, 0],
    ) && scratch::sized(
        [answer1.len(), answer2.len(), answer3.len(), 0, 0, 0],
        [378 * n + 64, 504 * n + 64, 504 * n + 64, 0, 0, 0],
    )
}
