// The sponge of FIPS 202 over the proved permutation, with the rate of SHA3-256: it absorbs lent bytes in place, by value.
ghost use Rattle.std.specs.Prelude.{◌≡◌, ◌+◌, ◌-◌, ◌%◌, ◌≤◌, ◌<◌, length};
ghost use Rattle.codec.specs.Bytes.{put, zeros};
ghost use Rattle.keccak.specs.Keccak.{keccak};
ghost use Rattle.sha3.specs.Absorb.{xor_lane, xor_byte, absorb, zero_state};
ghost use Rattle.sha3.specs.Internal.{xor_block, absorb_row};

// The state before any message.
pub fn start() -> [[u64; 5]; 5]
    ensures { result ≡ zero_state }
{
    [[0u64; 5]; 5]
}

// A lane with the byte b xored into its byte k, the lowest of which is byte 0.
fn xor_lane(l: u64, k: usize, b: u8) -> u64
    requires { k < 8 }
    ensures { result ≡ xor_lane l k b }
{
    l ^ ((b as u64) << (k * 8))
}

// A state with the byte b xored into its byte at.
pub fn xor_byte(s: [[u64; 5]; 5], at: usize, b: u8) -> [[u64; 5]; 5]
    requires { at < 136 }
    ensures { result ≡ xor_byte s at b }
{
    let y = at / 40;
    let x = at / 8 % 5;
    let mut t = s;
    let l = xor_lane(t[y][x], at % 8, b);
    t[y][x] = l;
    t
}

// A row with the 40 bytes of the block p from `at` xored in.
fn xor_row(r: [u64; 5], p: &[u8], at: usize) -> [u64; 5]
    requires { at + 40 ≤ length p.now }
    ensures { result ≡ absorb_row r p.now at }
{
    [
        r[0] ^ codec::read64(p, at),
        r[1] ^ codec::read64(p, at + 8),
        r[2] ^ codec::read64(p, at + 16),
        r[3] ^ codec::read64(p, at + 24),
        r[4] ^ codec::read64(p, at + 32),
    ]
}

// A state with the block p xored in.
fn xor_block(s: [[u64; 5]; 5], p: &[u8]) -> [[u64; 5]; 5]
    requires { length p.now ≡ 136 }
    ensures { result ≡ xor_block s p.now }
{
    [
        xor_row(s[0], p, 0),
        xor_row(s[1], p, 40),
        xor_row(s[2], p, 80),
        [
            s[3][0] ^ codec::read64(p, 120),
            s[3][1] ^ codec::read64(p, 128),
            s[3][2],
            s[3][3],
            s[3][4],
        ],
        s[4],
    ]
}

// Whole blocks of a message.
fn absorb_blocks(s: [[u64; 5]; 5], m: &[u8]) -> [[u64; 5]; 5]
    requires { length m.now % 136 ≡ 0 }
    ensures { result ≡ absorb s 0 m.now }
{
    let mut t = s;
    for block in m.chunks_exact(136) {
        let u = keccak::permute(xor_block(t, block));
        t = u;
    }
    t
}

// A state after the permutation, by a block of zeros. `absorb_blocks` alone calls `keccak::permute`, so that the compiler puts it in place
// there, and the state is not copied from block to block.
pub fn permuted(s: [[u64; 5]; 5]) -> [[u64; 5]; 5]
    ensures { result ≡ keccak s }
{
    let block = [0u8; 136];
    absorb_blocks(s, &block)
}

// A block that has the bytes m from place `at`, and zeros around them.
fn block_of(at: usize, m: &[u8]) -> [u8; 136]
    requires { at + length m.now ≤ 136 }
    ensures { result ≡ put (zeros 136) at m.now }
{
    let mut block = [0u8; 136];
    codec::copy(&mut block, at, m);
    block
}

// Bytes of a message that end before their block, the first at place `at`.
fn absorb_inside(s: [[u64; 5]; 5], at: usize, m: &[u8]) -> [[u64; 5]; 5]
    requires { at + length m.now < 136 }
    ensures { result ≡ absorb s at m.now }
{
    let block = block_of(at, m);
    xor_block(s, &block)
}

// Bytes of a message to the end of their block, the first at place `at`; none where that is its start.
fn absorb_head(s: [[u64; 5]; 5], at: usize, m: &[u8]) -> [[u64; 5]; 5]
    requires at_bound { at < 136 }
    requires m_len { length m.now ≡ (136 - at) % 136 }
    ensures { result ≡ absorb s at m.now }
{
    if at == 0 {
        return s;
    }
    let block = block_of(at, m);
    absorb_blocks(s, &block)
}

// Bytes of a message, the first at place `at` of its block: to the block's end, whole blocks, and what is left.
pub fn absorb(s: [[u64; 5]; 5], at: usize, m: &[u8]) -> [[u64; 5]; 5]
    requires { at < 136 }
    ensures { result ≡ absorb s at m.now }
{
    if m.len() < 136 - at {
        return absorb_inside(s, at, m);
    }
    let head = (136 - at) % 136;
    let end = m.len() - (m.len() - head) % 136;
    let a = absorb_head(s, at, &m[0..head]);
    let b = absorb_blocks(a, &m[head..end]);
    absorb_inside(b, 0, &m[end..])
}

// The place in a block after n more bytes.
pub fn advance(at: usize, n: usize) -> usize
    requires { at < 136 }
    ensures { result ≡ (at + n) % 136 }
{
    (at + n % 136) % 136
}
