// Ballot j's opened share: the stretch of whichever side's slice was opened (document 01, "Layouts").
ghost use Rattle.std.specs.Prelude.{◌≡◌};
ghost use Rattle.round_tests.specs.Opened.{opened_place, opened_reply};
ghost use Rattle.round_tests.specs.Internal.{opened_share};

// The place of its first byte in that slice plus one; 0 where the stretch is empty: a number, as the definition has it and C is answered.
pub fn opened_place(side: u64, n: usize, length0: usize, length1: usize, j: usize) -> usize
    ensures { result ≡ opened_place side n length0 length1 j }
{
    if 1 < side {
        return 0;
    }
    if n < 4 {
        return 0;
    }
    if 2048 < n {
        return 0;
    }
    if 2048 % n != 0 {
        return 0;
    }
    if length0 != length1 {
        return 0;
    }
    if length0 % (8 * n) != 0 {
        return 0;
    }
    if length0 / (8 * n) <= j {
        return 0;
    }
    8 * n * j + 1
}

// The stretch itself.
#[tactic(auto, using(crate::proofs::OpenedPlaces::opened_ends, crate::proofs::OpenedPlaces::share_first))]
pub fn opened_share<'a>(
    side: u64,
    n: usize,
    shares0: &'a [u8],
    shares1: &'a [u8],
    j: usize,
) -> &'a [u8]
    ensures { result.now ≡ opened_share side n shares0.now shares1.now j }
{
    let place = opened_place(side, n, shares0.len(), shares1.len(), j);
    if place == 0 {
        return &shares0[..0];
    }
    let at = place - 1;
    let end = at + 8 * n;
    if side == 0 {
        return &shares0[at..end];
    }
    &shares1[at..end]
}

// The place as the C host is answered: the value of a reply.
pub fn opened_reply(side: u64, n: u64, length0: usize, length1: usize, j: u64) -> u64
    ensures { result ≡ opened_reply side n length0 length1 j }
{
    let place = opened_place(side, n as usize, length0, length1, j as usize);
    if place < 72057594037927936 {
        256 * (place as u64)
    } else {
        0
    }
}
