// The byte image of a session (document 01, "Register and session"): 4,297 bytes, the fields one after the other, little-endian.
#![tactic(auto)]

ghost use mathlib.Core.List.{flatten};
ghost use Rattle.std.specs.Prelude.{◌≡◌, ◌+◌, ◌≤◌, length};
ghost use Rattle.codec.specs.Reply.{packed};
ghost use Rattle.codec.specs.Refusal.{reply_by};
ghost use Rattle.scratch.specs.Vocabulary.{put};
ghost use Rattle.session_image.specs.Image.{image_length, size, contents_of, image_of, decode, head_fields, batch_fields, round_fields};

use codec::Refuses;
use session::{Session, Stepped};
use session_progress::Progress;
use sheet_numbers::Numbers;

// Where each field begins: behind the one before it. The length of an image is where the last one ends.
const PHASE: usize = 0;

const RING: usize = PHASE + 1;

const MODULUS: usize = RING + 8;

const DROWN: usize = MODULUS + 8;

const ROUNDS: usize = DROWN + 8;

const REPEATS: usize = ROUNDS + 8;

const SHEET: usize = REPEATS + 8;

const USED: usize = SHEET + 32;

const CLOSED: usize = USED + 8;

const CLOSING: usize = CLOSED + 8;

const CLAIM: usize = CLOSING + 32;

const COMMITTED: usize = CLAIM + 32;

const SEED: usize = COMMITTED + 8;

const CHECKED: usize = SEED + 32;

const TRAIL: usize = CHECKED + 8;

pub const IMAGE: usize = TRAIL + 4096;

// The sheet's numbers.
fn read_numbers(image: &[u8]) -> Numbers
    requires { length image.now ≡ image_length }
    ensures { result ≡ (decode image.now).numbers }
{
    Numbers {
        ring: codec::read64(image, RING),
        modulus: codec::read64(image, MODULUS),
        drown: codec::read64(image, DROWN),
        rounds: codec::read64(image, ROUNDS),
        repeats: codec::read64(image, REPEATS),
    }
}

// The session that an image holds.
pub fn load(image: &[u8]) -> Session
    requires { length image.now ≡ image_length }
    ensures { result ≡ decode image.now }
{
    let progress = Progress {
        phase: image[PHASE],
        used: codec::read64(image, USED),
        closed: codec::read64(image, CLOSED),
        committed: codec::read64(image, COMMITTED),
        checked: codec::read64(image, CHECKED),
    };
    Session {
        progress,
        numbers: read_numbers(image),
        sheet: codec::array(image, SHEET),
        closing: codec::array(image, CLOSING),
        claim: codec::array(image, CLAIM),
        seed: codec::array(image, SEED),
        trail: codec::array(image, TRAIL),
    }
}

// Writes the phase, the sheet's numbers and the sheet's digest.
fn store_head(session: Session, image: &mut [u8])
    requires { length image.old ≡ image_length }
    ensures { image.new ≡ put image.old 0 (flatten (contents_of head_fields session)) }
{
    let numbers = session.numbers;
    codec::write8(image, PHASE, session.progress.phase);
    codec::write64(image, RING, numbers.ring);
    codec::write64(image, MODULUS, numbers.modulus);
    codec::write64(image, DROWN, numbers.drown);
    codec::write64(image, ROUNDS, numbers.rounds);
    codec::write64(image, REPEATS, numbers.repeats);
    codec::copy(image, SHEET, &session.sheet);
}

// Writes the counts and the digests of the batch.
fn store_batch(session: Session, image: &mut [u8])
    requires { length image.old ≡ image_length }
    ensures { image.new ≡ put image.old (size head_fields) (flatten (contents_of batch_fields session)) }
{
    codec::write64(image, USED, session.progress.used);
    codec::write64(image, CLOSED, session.progress.closed);
    codec::copy(image, CLOSING, &session.closing);
    codec::copy(image, CLAIM, &session.claim);
}

// Writes the counts of rounds, the seed, and the digests of the first messages.
fn store_rounds(session: Session, image: &mut [u8])
    requires { length image.old ≡ image_length }
    ensures { image.new ≡ put image.old (size head_fields + size batch_fields) (flatten (contents_of round_fields session)) }
{
    codec::write64(image, COMMITTED, session.progress.committed);
    codec::copy(image, SEED, &session.seed);
    codec::write64(image, CHECKED, session.progress.checked);
    codec::copy(image, TRAIL, &session.trail);
}

// Writes the image of a session.
pub fn store(session: Session, image: &mut [u8])
    requires { length image.old ≡ image_length }
    ensures { image.new ≡ image_of session }
{
    store_head(session, image);
    store_batch(session, image);
    store_rounds(session, image);
}

// Stores the session that a step leaves, and answers for the step.
pub fn keep<E: Refuses>(stepped: Stepped<E>, image: &mut [u8]) -> u64
    requires { length image.old ≡ image_length }
    ensures { (result ≡ packed (reply_by E.number E.place stepped.reply)) × (image.new ≡ image_of stepped.session) }
{
    store(stepped.session, image);
    codec::pack(stepped.reply)
}
