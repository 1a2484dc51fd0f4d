// The trail of a session: the digests of the rounds' first messages, 32 bytes each, in order.
ghost use Rattle.std.specs.Prelude.{◌≡◌, ◌*◌, ◌<◌};
ghost use Rattle.round.specs.Vocabulary.{part, put};

// Puts a round's digest in its place.
pub fn write(trail: &mut [u8; 4096], round: usize, digest: &[u8; 32])
    requires { round < 128 }
    ensures { trail.new ≡ put trail.old (32 * round) digest.now }
{
    codec::copy(trail, 32 * round, digest);
}

// The digest of a round.
pub fn read(trail: &[u8; 4096], round: usize) -> [u8; 32]
    requires { round < 128 }
    ensures { result ≡ part trail.now (32 * round) 32 }
{
    codec::array(trail, 32 * round)
}
