// The calls of a round: the producer's two, the extractor and the opened share.
ghost use Rattle.std.specs.Prelude.{◌≡◌, length};
ghost use Rattle.codec.specs.Reply.{packed};
ghost use Rattle.round.specs.RoundSlices.{openings_in, extract_in, extract_out};
ghost use Rattle.round.specs.Lent.{material_in, first_in, first_out, second_in, second_out};
ghost use Rattle.round_extract.specs.Extraction.{answered};
ghost use Rattle.round_produce.specs.Replies.{first_reply, FirstCalled, second_reply, SecondCalled};
ghost use Rattle.round_extract.specs.Replies.{extract_found, ExtractCalled};
ghost use Rattle.round_tests.specs.Opened.{opened_reply};

use round::LentMaterial;

// The producer's first call: the first message and the claims.
#[unsafe(no_mangle)]
pub extern "C" fn jdn_produce_first(
    sheet: &[u8],
    secrets: &[u8],
    s0: &[u8],
    e0: &[u8],
    masks0: &[u8],
    masks1: &[u8],
    vectors: &[u8],
    permutations: &[u8],
    salts: &[u8],
    ballots: &[u8],
    head: &mut [u8],
    shares0: &mut [u8],
    shares1: &mut [u8],
    claims: &mut [u8],
    scratch: &mut [u8],
) -> u64
    ensures { let x = material_in secrets s0 e0 masks0 masks1 vectors permutations salts ballots in
        let before = first_in head shares0 shares1 claims scratch in let after = first_out head shares0 shares1 claims scratch in
        let reply = first_reply sheet.now x before in (result ≡ packed reply) × FirstCalled sheet.now x before reply after }
{
    let mut public = [0u8; 81920];
    let lent = LentMaterial {
        secrets,
        s0,
        e0,
        masks0,
        masks1,
        vectors,
        permutations,
        salts,
        ballots,
    };
    match sheet::load(sheet, &mut public) {
        Ok(k) => codec::pack(round_produce::produce_first(
            k, &public, lent, head, shares0, shares1, claims, scratch,
        )),
        Err(why) => codec::pack(scratch::finish(Err(why), scratch)),
    }
}

// Its second call: the opening of a side, and the answers to challenges.
#[unsafe(no_mangle)]
pub extern "C" fn jdn_produce_second(
    sheet: &[u8],
    secrets: &[u8],
    s0: &[u8],
    e0: &[u8],
    masks0: &[u8],
    masks1: &[u8],
    vectors: &[u8],
    permutations: &[u8],
    salts: &[u8],
    ballots: &[u8],
    side: u64,
    challenges: &[u8],
    opening: &mut [u8],
    answers: &mut [u8],
    scratch: &mut [u8],
) -> u64
    ensures { let x = material_in secrets s0 e0 masks0 masks1 vectors permutations salts ballots in
        let before = second_in opening answers scratch in let after = second_out opening answers scratch in
        let reply = second_reply sheet.now x side challenges.now before in
        (result ≡ packed reply) × SecondCalled sheet.now x side challenges.now before reply after }
{
    let mut public = [0u8; 81920];
    let lent = LentMaterial {
        secrets,
        s0,
        e0,
        masks0,
        masks1,
        vectors,
        permutations,
        salts,
        ballots,
    };
    match sheet::load(sheet, &mut public) {
        Ok(k) => codec::pack(round_produce::produce_second(
            k, &public, lent, side, challenges, opening, answers, scratch,
        )),
        Err(why) => codec::pack(scratch::finish(Err(why), scratch)),
    }
}

// The extractor: what two openings and three answers yield.
#[unsafe(no_mangle)]
pub extern "C" fn jdn_extract<'a>(
    sheet: &[u8],
    head: &[u8],
    shares0: &'a [u8],
    shares1: &'a [u8],
    ballots: &[u8],
    claims: &[u8],
    opening0: &[u8],
    opening1: &[u8],
    repetition: u64,
    answer1: &[u8],
    answer2: &[u8],
    answer3: &[u8],
    out: &mut [u8],
    scratch: &mut [u8],
) -> u64
    ensures { let x = openings_in head shares0 shares1 ballots claims opening0 opening1 repetition answer1 answer2 answer3 in
        let before = extract_in out scratch in let found = extract_found sheet.now x before in
        (result ≡ answered found) × ExtractCalled sheet.now x before found (extract_out out scratch) }
{
    let mut public = [0u8; 81920];
    match sheet::load(sheet, &mut public) {
        Ok(k) => round_extract::pack_extraction(round_extract::extract(
            k, &public, head, shares0, shares1, ballots, claims, opening0, opening1, repetition,
            answer1, answer2, answer3, out, scratch,
        )),
        Err(why) => codec::pack(scratch::finish(Err(why), scratch)),
    }
}

// Where ballot j's opened share stands in the slice of the opened side, plus one, as the reply's value; 0 where the stretch is empty.
#[unsafe(no_mangle)]
pub extern "C" fn jdn_opened_share(side: u64, n: u64, shares0: &[u8], shares1: &[u8], j: u64) -> u64
    ensures { result ≡ opened_reply side n (length shares0.now) (length shares1.now) j }
{
    round_tests::opened::opened_reply(side, n, shares0.len(), shares1.len(), j)
}
