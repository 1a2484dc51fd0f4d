// The calls of a session: its eight steps over a lent image, challenges and turnout, and the fixed lengths. A step loads the session from
// its image, and stores the one that it leaves.
ghost use Rattle.std.specs.Prelude.{◌≡◌, ◌≢◌, length};
ghost use Rattle.scratch.specs.Call.{scratch_length};
ghost use Rattle.register.specs.Register.{register_length};
ghost use Rattle.session_check.specs.Check.{inputs_in};
ghost use Rattle.session.specs.Steps.{on};
ghost use Rattle.session.specs.Machine.{clear, admit, withdraw, close, claim, commit, draw};
ghost use Rattle.session_image.specs.Image.{image_length};
ghost use Rattle.jackdawnail.specs.OverImage.{StepTaken};
ghost use Rattle.session_image.specs.Images.{host, StepCalled, StepCalledAlone, CheckCalled, ChallengesCalled, turnout_answer};

use codec::Refusal;
use session::{Session, Stepped};
use session_check::Lent;
use session_image::{IMAGE, keep, load};

// The length of the image of a session.
#[unsafe(no_mangle)]
pub extern "C" fn jdn_image_length() -> u64
    ensures { result ≡ image_length }
{
    4297
}

// The length of scratch.
#[unsafe(no_mangle)]
pub extern "C" fn jdn_scratch_length() -> u64
    ensures { result ≡ scratch_length }
{
    1048576
}

// The length of the register.
#[unsafe(no_mangle)]
pub extern "C" fn jdn_register_length() -> u64
    ensures { result ≡ register_length }
{
    163840
}

// Takes a step over the session that an image holds, with bytes that are lent to it, and stores the session that it leaves. An image of
// another length is refused, and nothing is touched.
fn over_image<F: FnOnce(Session, &mut [u8]) -> Stepped>(
    image: &mut [u8],
    lent: &mut [u8],
    step: F,
) -> u64
    requires { F.IsAlwaysCallable step }
    ensures wrong { length image.old ≢ image_length → (result ≡ 1) × (image.new ≡ image.old) × (lent.new ≡ lent.old) }
    ensures stepped { length image.old ≡ image_length → StepTaken F.FnOnce step image.old lent.old result image.new lent.new }
{
    if image.len() != IMAGE {
        return codec::pack(Err(Refusal::WrongLength));
    }
    let stepped = step(load(image), lent);
    keep(stepped, image)
}

// Starts anew, on a sheet and with an empty register, whatever the image holds.
#[unsafe(no_mangle)]
pub extern "C" fn jdn_clear(image: &mut [u8], reg: &mut [u8], sheet: &[u8]) -> u64
    ensures { StepCalled (clear (on sheet.now)) (host image.old reg.old) result (host image.new reg.new) }
{
    over_image(image, reg, |session, reg| session.clear(reg, sheet))
}

// Admits a ballot: mark, u, v.
#[unsafe(no_mangle)]
pub extern "C" fn jdn_admit(image: &mut [u8], reg: &mut [u8], ballot: &[u8]) -> u64
    ensures { StepCalled (admit ballot.now) (host image.old reg.old) result (host image.new reg.new) }
{
    over_image(image, reg, |session, reg| session.admit(reg, ballot))
}

// Withdraws a mark, whether its ballot has come or not.
#[unsafe(no_mangle)]
pub extern "C" fn jdn_withdraw(image: &mut [u8], reg: &mut [u8], mark: u32) -> u64
    ensures { StepCalled (withdraw mark) (host image.old reg.old) result (host image.new reg.new) }
{
    over_image(image, reg, |session, reg| session.withdraw(reg, mark))
}

// Closes the batch of the standing entries.
#[unsafe(no_mangle)]
pub extern "C" fn jdn_close(image: &mut [u8], reg: &[u8]) -> u64
    ensures { StepCalled close (host image.old reg.now) result (host image.new reg.now) }
{
    over_image(image, &mut [], |session, _| session.close(reg))
}

// Takes the claims.
#[unsafe(no_mangle)]
pub extern "C" fn jdn_claim(image: &mut [u8], claims: &[u8]) -> u64
    ensures { StepCalledAlone (claim claims.now) image.old result image.new }
{
    over_image(image, &mut [], |session, _| session.claim(claims))
}

// Commits the first message of a round.
#[unsafe(no_mangle)]
pub extern "C" fn jdn_commit(
    image: &mut [u8],
    round: u64,
    head: &[u8],
    shares0: &[u8],
    shares1: &[u8],
) -> u64
    ensures { StepCalledAlone (commit round head.now shares0.now shares1.now) image.old result image.new }
{
    over_image(
        image,
        &mut [],
        |session, _| session.commit(round, head, shares0, shares1),
    )
}

// Takes the seed of 32 bytes.
#[unsafe(no_mangle)]
pub extern "C" fn jdn_draw(image: &mut [u8], seed: &[u8]) -> u64
    ensures { StepCalledAlone (draw seed.now) image.old result image.new }
{
    over_image(image, &mut [], |session, _| session.draw(seed))
}

// Checks a round. Not by `over_image`: with a closure one copy more of the session stands on the stack, and no call goes deeper than
// this.
#[unsafe(no_mangle)]
pub extern "C" fn jdn_check<'a>(
    image: &mut [u8],
    sheet: &[u8],
    ballots: &[u8],
    claims: &[u8],
    round: u64,
    head: &[u8],
    shares0: &'a [u8],
    shares1: &'a [u8],
    opening: &[u8],
    answers: &[u8],
    scratch: &mut [u8],
) -> u64
    ensures { let x = inputs_in sheet ballots claims head shares0 shares1 opening answers scratch in
        CheckCalled round x image.old result image.new scratch.new }
{
    if image.len() != IMAGE {
        return codec::pack(Err(Refusal::WrongLength));
    }
    let lent = Lent {
        sheet,
        ballots,
        claims,
        head,
        shares0,
        shares1,
        opening,
        answers,
    };
    let session = load(image);
    let stepped = session.check(round, lent, scratch);
    keep(stepped, image)
}

// Writes the side and the challenges that were drawn for a round.
#[unsafe(no_mangle)]
pub extern "C" fn jdn_challenges(image: &[u8], round: u64, out: &mut [u8]) -> u64
    ensures { ChallengesCalled image.now round result out.old out.new }
{
    if image.len() != IMAGE {
        return codec::pack(Err(Refusal::WrongLength));
    }
    codec::pack(load(image).challenges(round, out))
}

// The standing entries in thousandths of the enrolled, as the reply's value.
#[unsafe(no_mangle)]
pub extern "C" fn jdn_turnout(image: &[u8], reg: &[u8], enrolled: u64) -> u64
    ensures { result ≡ turnout_answer image.now reg.now enrolled }
{
    if image.len() != IMAGE {
        return codec::pack(Err(Refusal::WrongLength));
    }
    codec::pack_value(load(image).turnout(reg, enrolled))
}
