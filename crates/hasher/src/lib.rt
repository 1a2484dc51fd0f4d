// SHA3-256 of a message that comes in parts: a hasher by value, and the same lent in place. `make` and `state` are all that reaches into a
// hasher's state.
#![tactic(auto)]

ghost use Rattle.std.specs.Prelude.{◌≡◌, [], ◌++◌};
ghost use Rattle.sha3.specs.Sponge.{sha3};
ghost use Rattle.hasher.specs.Internal.{made, holding, updated, finished};

// The sponge's state, and the place of the next byte in its block.
#[derive(Clone, Copy)]
pub struct Hasher {
    pub state: [[u64; 5]; 5],
    pub place: usize,
}

// A hasher of a state and a place.
fn make(state: [[u64; 5]; 5], place: usize) -> Hasher
    ensures { result ≡ made state place }
{
    Hasher {
        state: state,
        place: place,
    }
}

// The state of a hasher.
fn state(h: Hasher) -> [[u64; 5]; 5]
    ensures { result ≡ h.state }
{
    h.state
}

impl Hasher {
    // The hasher that has taken in nothing.
    pub fn new() -> Hasher
        ensures { result ≡ holding [] }
    {
        make(sha3::sponge::start(), 0)
    }

    // The hasher after the bytes too.
    pub fn absorbed(self, bytes: &[u8]) -> Hasher
        ensures { result ≡ updated self bytes.now }
    {
        let at = self.place % 136;
        let next = sha3::sponge::absorb(state(self), at, bytes);
        make(next, sha3::sponge::advance(at, bytes.len()))
    }

    // Takes in the bytes, in place.
    pub fn update(&mut self, bytes: &[u8])
        ensures { self.new ≡ updated self.old bytes.now }
    {
        *self = self.absorbed(bytes);
    }

    // The digest of what was taken in.
    pub fn finish(self) -> [u8; 32]
        ensures { result ≡ finished self }
    {
        sha3::finish(state(self), self.place % 136)
    }
}

// SHA3-256 of four strings end to end. Its contract says nothing of a hasher, so its callers need know nothing of one.
pub fn hash_parts(a: &[u8], b: &[u8], c: &[u8], d: &[u8]) -> [u8; 32]
    ensures { result ≡ sha3 (a.now ++ (b.now ++ (c.now ++ d.now))) }
{
    let mut h = Hasher::new();
    h.update(a);
    h.update(b);
    h.update(c);
    h.update(d);
    h.finish()
}
