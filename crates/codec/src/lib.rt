// Little-endian numbers in byte slices, parts, copies, and the reply of a call (document 01, "Layouts" and "Refused").
#![tactic(auto)]

ghost use Rattle.std.specs.Prelude.{◌≡◌, ℕ, ◌+◌, ◌≤◌, ◌<◌, [], ◌∷◌, length};
ghost use Rattle.codec.specs.Bytes.{bytes, number, signed, part, put, zeros, same};
ghost use Rattle.codec.specs.Reply.{packed};
ghost use Rattle.codec.specs.Refusal.{number_of_refusal, place_of_refusal, reply_by, packed_value_by};

// Why a call is refused (document 01, "Refused because of the input" and "Refused because of the state"). What is found at a repetition or
// a ballot names the lowest one; where a call is lent one mask alone, that is 0.
#[derive(Clone, Copy, PartialEq, Eq)]
pub enum Refusal {
    WrongLength,
    SheetForm,
    NumberOutOfRange,
    SheetUnsound,
    ValueOutOfRange,
    HalvesNotAdding,
    OpenedKeyWrong,
    OpenedCommitmentWrong,
    NoPermutation(u32),
    NotBalanced(u32),
    DigestDiffers(u32),
    MaskTooLarge(u32),
    ClaimDiffers(u32),
    SecretNotMatching,
    NoiseTooLarge(u32),
    StoredDiffers,
    NotDue,
    MarkStanding,
    MarkWithdrawn,
    RegisterFull,
    NoneStanding,
    NoRoot,
}

// What a call answers that gives nothing else.
pub type Reply = Result<(), Refusal>;

impl Refusal {
    // Document 01's number.
    pub fn number(self) -> u8
        ensures { result ≡ number_of_refusal self }
    {
        match self {
            Refusal::WrongLength => 1,
            Refusal::SheetForm => 2,
            Refusal::NumberOutOfRange => 3,
            Refusal::SheetUnsound => 4,
            Refusal::ValueOutOfRange => 5,
            Refusal::HalvesNotAdding => 6,
            Refusal::OpenedKeyWrong => 7,
            Refusal::OpenedCommitmentWrong => 8,
            Refusal::NoPermutation(_) => 9,
            Refusal::NotBalanced(_) => 10,
            Refusal::DigestDiffers(_) => 11,
            Refusal::MaskTooLarge(_) => 12,
            Refusal::ClaimDiffers(_) => 13,
            Refusal::SecretNotMatching => 14,
            Refusal::NoiseTooLarge(_) => 15,
            Refusal::StoredDiffers => 16,
            Refusal::NotDue => 31,
            Refusal::MarkStanding => 32,
            Refusal::MarkWithdrawn => 33,
            Refusal::RegisterFull => 35,
            Refusal::NoneStanding => 36,
            Refusal::NoRoot => 37,
        }
    }

    // The repetition or ballot that it names; 0 where it names none.
    pub fn place(self) -> u32
        ensures { result ≡ place_of_refusal self }
    {
        match self {
            Refusal::NoPermutation(place) => place,
            Refusal::NotBalanced(place) => place,
            Refusal::DigestDiffers(place) => place,
            Refusal::MaskTooLarge(place) => place,
            Refusal::ClaimDiffers(place) => place,
            Refusal::NoiseTooLarge(place) => place,
            _ => 0,
        }
    }
}

// A refusal by number and place alone: any that the one number for C has room for, whether document 01 knows it or not.
#[derive(Clone, Copy, PartialEq, Eq)]
pub struct Numbered {
    pub number: u8,
    pub place: u32,
}

// What a call can be refused by, a `Refusal` or a `Numbered`: whoever answers C or ends a call asks for its number and its place alone.
pub trait Refuses: Copy {
    ghost number: { Self → ℕ };

    ghost place: { Self → ℕ };

    fn number(self) -> u8
        ensures { result ≡ number self };

    fn place(self) -> u32
        ensures { result ≡ place self };
}

impl Refuses for Refusal {
    ghost number = { number_of_refusal };

    ghost place = { place_of_refusal };

    fn number(self) -> u8 {
        Refusal::number(self)
    }

    fn place(self) -> u32 {
        Refusal::place(self)
    }
}

impl Refuses for Numbered {
    ghost number = { λ why. why.number };

    ghost place = { λ why. why.place };

    fn number(self) -> u8 {
        self.number
    }

    fn place(self) -> u32 {
        self.place
    }
}

// A reply as the one number that the C host is answered.
pub fn pack<E: Refuses>(reply: Result<(), E>) -> u64
    ensures { result ≡ packed (reply_by E.number E.place reply) }
{
    pack_value(reply.map(|_| 0))
}

// A value, or a refusal, as the one number that the C host is answered: the value stands where a refusal has its place.
pub fn pack_value<E: Refuses>(answer: Result<u32, E>) -> u64
    ensures { result ≡ packed_value_by E.number E.place answer }
{
    match answer {
        Ok(value) => 256 * u64::from(value),
        Err(why) => u64::from(why.number()) + 256 * u64::from(why.place()),
    }
}

// The N bytes at a place.
pub fn array<const N: usize>(s: &[u8], at: usize) -> [u8; N]
    requires { at + N ≤ length s.now }
    ensures { result ≡ part s.now at N }
{
    let mut bytes = [0u8; N];
    copy(&mut bytes, 0, &s[at..at + N]);
    bytes
}

// ---- numbers of 2, 4 and 8 bytes: a name for each width, as the library has with `from_le_bytes`; a generic one would have to name the
// width at each call instead

// The 2-byte number at a place.
pub fn read16(s: &[u8], at: usize) -> u16
    requires { at + 2 ≤ length s.now }
    ensures { result ≡ number (part s.now at 2) }
{
    u16::from_le_bytes(array(s, at))
}

// The 4-byte number at a place.
pub fn read32(s: &[u8], at: usize) -> u32
    requires { at + 4 ≤ length s.now }
    ensures { result ≡ number (part s.now at 4) }
{
    u32::from(read16(s, at)) + 65536 * u32::from(read16(s, at + 2))
}

// The 8-byte number at a place.
pub fn read64(s: &[u8], at: usize) -> u64
    requires { at + 8 ≤ length s.now }
    ensures { result ≡ number (part s.now at 8) }
{
    u64::from_le_bytes(array(s, at))
}

// The signed 8-byte number at a place, in two's complement.
pub fn read_signed(s: &[u8], at: usize) -> i64
    requires { at + 8 ≤ length s.now }
    ensures { result ≡ signed (number (part s.now at 8)) }
{
    read64(s, at).cast_signed()
}

// Writes one byte at a place.
pub fn write8(d: &mut [u8], at: usize, v: u8)
    requires { at < length d.old }
    ensures { d.new ≡ put d.old at (v ∷ []) }
{
    d[at] = v;
}

// Writes a number as 2 bytes at a place.
pub fn write16(d: &mut [u8], at: usize, v: u16)
    requires { at + 2 ≤ length d.old }
    ensures { d.new ≡ put d.old at (bytes 2 v) }
{
    copy(d, at, &u16::to_le_bytes(v));
}

// Writes a number as 4 bytes at a place.
pub fn write32(d: &mut [u8], at: usize, v: u32)
    requires { at + 4 ≤ length d.old }
    ensures { d.new ≡ put d.old at (bytes 4 v) }
{
    copy(d, at, &u32::to_le_bytes(v));
}

// Writes a number as 8 bytes at a place.
pub fn write64(d: &mut [u8], at: usize, v: u64)
    requires { at + 8 ≤ length d.old }
    ensures { d.new ≡ put d.old at (bytes 8 v) }
{
    copy(d, at, &u64::to_le_bytes(v));
}

// Copies all of s into d from a place on. The library's `copy_from_slice` would ask the host for C's memmove, which nothing else here
// needs.
pub fn copy(d: &mut [u8], at: usize, s: &[u8])
    requires { at + length s.now ≤ length d.old }
    ensures { d.new ≡ put d.old at s.now }
{
    for (i, b) in s.iter().enumerate() {
        d[at + i] = *b;
    }
}

// Writes zero over every byte.
pub fn wipe(d: &mut [u8])
    ensures { d.new ≡ zeros (length d.old) }
{
    d.fill(0);
}

// Whether two slices hold the same bytes.
#[tactic(auto, using(crate::proofs::Laws::pointwise_same))]
pub fn equal(a: &[u8], b: &[u8]) -> bool
    ensures { result ≡ same a.now b.now }
{
    a == b
}
