// What a seed draws for a round: the side and the challenges (document 01, "Register and session").
ghost use Rattle.std.specs.Prelude.{◌≡◌, ◌≤◌, ◌<◌, length};
ghost use Rattle.session_digests.specs.Draw as def;

// The c-th digest of the stream of a round.
fn block(seed: &[u8; 32], round: u16, c: u16) -> [u8; 32]
    ensures { result ≡ def.block seed.now round c }
{
    let mut message = [0u8; 36];
    codec::copy(&mut message, 0, seed);
    codec::write16(&mut message, 32, round);
    codec::write16(&mut message, 34, c);
    sha3::hash(&message)
}

// The side that is drawn for a round.
pub fn side(seed: &[u8; 32], round: u16) -> u64
    ensures { (result ≡ def.drawn_side seed.now round) × (result < 2) }
{
    let first = block(seed, round, 0);
    codec::read64(&first, 0) % 2
}

// The challenges that are drawn for a round, as many as there is room for.
pub fn challenges(seed: &[u8; 32], round: u16, out: &mut [u8])
    requires { length out.old ≤ 256 }
    ensures { out.new ≡ def.drawn_challenges seed.now round (length out.old) }
{
    let mut digest = block(seed, round, 0);
    for i in 0..out.len() {
        if (i + 1) % 4 == 0 {
            let next = block(seed, round, ((i + 1) / 4) as u16);
            digest = next;
        }
        out[i] = (codec::read64(&digest, 8 * ((i + 1) % 4)) % 3 + 1) as u8;
    }
}
