// The extractor's call once the sheet is taken: the tests of lengths, then the order of refusals, then the work.
#![tactic(auto)]

ghost use Rattle.std.specs.Prelude.{◌≡◌, ℕ};
ghost use Rattle.round.specs.Vocabulary.{Loaded, openings_in, extract_in, parameters, first, zeroized};
ghost use Rattle.round.specs.Extractor.{extract_room};
ghost use Rattle.round.specs.RoundSlices.{extract_out};
ghost use Rattle.codec.specs.Refusal.{as_reply};
ghost use Rattle.round_extract.specs.Extraction.{answered, extraction_by, as_extraction};
ghost use Rattle.round_search.specs.Finding.{number_of_finding};
ghost use Rattle.round_extract.specs.Internal.{ExtractWritten};
ghost use Rattle.round_lengths.specs.Calls.{openings_tests};

use codec::{Refusal, Refuses, Reply};
use round_lengths::{count_of, message_sized, openings_sized};
use round_search::Finding;
use sheet_numbers::Numbers;

// The most ballots of a batch.
const MOST_BALLOTS: usize = 4096;

// What an extractor can have found: document 01's number of its kind, of a `Finding` or by itself.
pub trait Kind: Copy {
    ghost kind: { Self → ℕ };

    fn kind(self) -> u8
        ensures { result ≡ kind self };
}

impl Kind for Finding {
    ghost kind = { number_of_finding };

    fn kind(self) -> u8 {
        Finding::number(self)
    }
}

impl Kind for u8 {
    ghost kind = { λ kind. kind };

    fn kind(self) -> u8 {
        self
    }
}

// What the extractor's call answers, the kind of what it found or why it is refused, as the one number that the C host is answered.
pub fn pack_extraction<K: Kind, E: Refuses>(answer: Result<K, E>) -> u64
    ensures { result ≡ answered (extraction_by K.kind E.number E.place answer) }
{
    match answer {
        Ok(found) => codec::pack_value::<E>(Ok(u32::from(found.kind()))),
        Err(why) => codec::pack_value(Err(why)),
    }
}

// ---- What the extractor's call refuses, before anything is looked for.

// 1, and then both openings and the three answers in the extractor's order.
fn openings_tests<'a>(
    k: Numbers,
    public: &[u8],
    head: &[u8],
    shares0: &'a [u8],
    shares1: &'a [u8],
    ballots: &[u8],
    claims: &[u8],
    opening0: &[u8],
    opening1: &[u8],
    repetition: u64,
    answer1: &[u8],
    answer2: &[u8],
    answer3: &[u8],
    out: &[u8],
    scratch: &mut [u8],
) -> Reply
    requires { Loaded k public.now }
    ensures { let x = openings_in head shares0 shares1 ballots claims opening0 opening1 repetition answer1 answer2 answer3 in
        (as_reply result ≡ first (openings_tests (parameters k public.now) x (extract_room out.now scratch.old)))
        × (scratch.new ≡ zeroized (as_reply result) scratch.old) }
{
    let n = k.ring as usize;
    let repeats = k.repeats as usize;
    let count = count_of(ballots, n);
    if count > MOST_BALLOTS {
        return Err(Refusal::WrongLength);
    }
    if !message_sized(head, shares0, shares1, ballots, claims, count, repeats, n) {
        return Err(Refusal::WrongLength);
    }
    if !openings_sized(
        opening0, opening1, answer1, answer2, answer3, out, scratch, n,
    ) {
        return Err(Refusal::WrongLength);
    }
    round_sides::check_openings(
        scratch, k, public, head, shares0, shares1, ballots, claims, opening0, opening1,
        repetition, answer1, answer2, answer3, count,
    )
}

// The extractor: where its tests take what is lent, what openings and answers give away, in the output.
pub fn extract<'a>(
    k: Numbers,
    public: &[u8],
    head: &[u8],
    shares0: &'a [u8],
    shares1: &'a [u8],
    ballots: &[u8],
    claims: &[u8],
    opening0: &[u8],
    opening1: &[u8],
    repetition: u64,
    answer1: &[u8],
    answer2: &[u8],
    answer3: &[u8],
    out: &mut [u8],
    scratch: &mut [u8],
) -> Result<Finding, Refusal>
    requires { Loaded k public.now }
    ensures { let x = openings_in head shares0 shares1 ballots claims opening0 opening1 repetition answer1 answer2 answer3 in
        ExtractWritten (parameters k public.now) x (extract_in out scratch) (as_extraction result)
        (extract_out out scratch) }
{
    openings_tests(
        k, public, head, shares0, shares1, ballots, claims, opening0, opening1, repetition,
        answer1, answer2, answer3, out, scratch,
    )?;
    Ok(round_search::find(
        scratch, k, public, head, opening0, opening1, answer1, answer2, answer3, out,
    ))
}
