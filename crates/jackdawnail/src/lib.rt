// The calls of the C interface, include/jackdawnail.h: no call asks anything of its caller, and each contract gives the reply and every
// lent byte.
#![tactic(auto)]

pub mod products;
pub mod rounds;
pub mod steps;

ghost use Rattle.scheme.specs.Orders.{keygen_order, encrypt_order, decrypt_order, split_order, share_order, reconstruct_order};
ghost use Rattle.scheme.specs.Orders.{commitment_order};
ghost use Rattle.scheme.specs.Orders.{key_of, ciphertext_of, vote_of, split_of, share_of, vote_of_shares, commitment_of};
ghost use Rattle.jackdawnail.specs.Answers.{CallReplied, Digested, Described};

// SHA3-256 of a message into 32 lent bytes.
#[unsafe(no_mangle)]
pub extern "C" fn jdn_digest(message: &[u8], out: &mut [u8]) -> u64
    ensures { Digested message.now result out.old out.new }
{
    codec::pack(sha3::digest(message, out))
}

// Reads a sheet, and writes N, D, B and L into 32 lent bytes.
#[unsafe(no_mangle)]
pub extern "C" fn jdn_sheet(sheet: &[u8], out: &mut [u8]) -> u64
    ensures { Described sheet.now result out.old out.new }
{
    codec::pack(sheet::calls::describe(sheet, out))
}

// Writes the key b = a s + p e.
#[unsafe(no_mangle)]
pub extern "C" fn jdn_keygen(
    sheet: &[u8],
    s: &[u8],
    e: &[u8],
    b: &mut [u8],
    scratch: &mut [u8],
) -> u64
    ensures { CallReplied (keygen_order sheet.now s.now e.now b.old scratch.old)
        (key_of sheet.now s.now e.now) result b.old b.new scratch.old scratch.new }
{
    let mut public = [0u8; 81920];
    match sheet::load(sheet, &mut public) {
        Ok(k) => {
            let reply = scheme_keys::keygen(k, &public, s, e, b, scratch);
            codec::pack(scratch::finish(reply, scratch))
        }
        Err(why) => codec::pack(scratch::finish(Err(why), scratch)),
    }
}

// Writes the ciphertext: u = a r + p e', then v = b r + p e'' + m.
#[unsafe(no_mangle)]
pub extern "C" fn jdn_encrypt(
    sheet: &[u8],
    r: &[u8],
    e1: &[u8],
    e2: &[u8],
    m: &[u8],
    ciphertext: &mut [u8],
    scratch: &mut [u8],
) -> u64
    ensures { CallReplied (encrypt_order sheet.now r.now e1.now e2.now m.now ciphertext.old
        scratch.old)
        (ciphertext_of sheet.now r.now e1.now e2.now m.now) result ciphertext.old ciphertext.new scratch.old
        scratch.new }
{
    let mut public = [0u8; 81920];
    match sheet::load(sheet, &mut public) {
        Ok(k) => {
            let reply = scheme_encryption::encrypt(k, &public, r, e1, e2, m, ciphertext, scratch);
            codec::pack(scratch::finish(reply, scratch))
        }
        Err(why) => codec::pack(scratch::finish(Err(why), scratch)),
    }
}

// Writes the vote of a ciphertext: v - s u centred, by p.
#[unsafe(no_mangle)]
pub extern "C" fn jdn_decrypt(
    sheet: &[u8],
    s: &[u8],
    ciphertext: &[u8],
    vote: &mut [u8],
    scratch: &mut [u8],
) -> u64
    ensures { CallReplied (decrypt_order sheet.now s.now ciphertext.now vote.old scratch.old)
        (vote_of sheet.now s.now ciphertext.now) result vote.old vote.new scratch.old scratch.new }
{
    let mut public = [0u8; 81920];
    match sheet::load(sheet, &mut public) {
        Ok(k) => {
            let reply = scheme_encryption::decrypt(k, s, ciphertext, vote, scratch);
            codec::pack(scratch::finish(reply, scratch))
        }
        Err(why) => codec::pack(scratch::finish(Err(why), scratch)),
    }
}

// Writes the other half of a key split and the keys of both: s1, e1, b0, b1.
#[unsafe(no_mangle)]
pub extern "C" fn jdn_split(
    sheet: &[u8],
    s: &[u8],
    e: &[u8],
    s0: &[u8],
    e0: &[u8],
    out: &mut [u8],
    scratch: &mut [u8],
) -> u64
    ensures { CallReplied (split_order sheet.now s.now e.now s0.now e0.now out.old scratch.old)
        (split_of sheet.now s.now e.now s0.now e0.now) result out.old out.new scratch.old scratch.new }
{
    let mut public = [0u8; 81920];
    match sheet::load(sheet, &mut public) {
        Ok(k) => {
            let reply = scheme_keys::split(k, &public, s, e, s0, e0, out, scratch);
            codec::pack(scratch::finish(reply, scratch))
        }
        Err(why) => codec::pack(scratch::finish(Err(why), scratch)),
    }
}

// Writes the decryption share t = s_i u + p E.
#[unsafe(no_mangle)]
pub extern "C" fn jdn_share(
    sheet: &[u8],
    key_share: &[u8],
    u: &[u8],
    mask: &[u8],
    t: &mut [u8],
    scratch: &mut [u8],
) -> u64
    ensures { CallReplied (share_order sheet.now key_share.now u.now mask.now t.old scratch.old)
        (share_of sheet.now key_share.now u.now mask.now) result t.old t.new scratch.old scratch.new }
{
    let mut public = [0u8; 81920];
    match sheet::load(sheet, &mut public) {
        Ok(k) => {
            let reply = scheme::share(k, key_share, u, mask, t, scratch);
            codec::pack(scratch::finish(reply, scratch))
        }
        Err(why) => codec::pack(scratch::finish(Err(why), scratch)),
    }
}

// Writes the vote of two decryption shares: v - t0 - t1 centred, by p.
#[unsafe(no_mangle)]
pub extern "C" fn jdn_reconstruct(
    sheet: &[u8],
    v: &[u8],
    t0: &[u8],
    t1: &[u8],
    vote: &mut [u8],
    scratch: &mut [u8],
) -> u64
    ensures { CallReplied (reconstruct_order sheet.now v.now t0.now t1.now vote.old scratch.old)
        (vote_of_shares sheet.now v.now t0.now t1.now) result vote.old vote.new scratch.old scratch.new }
{
    let mut public = [0u8; 81920];
    match sheet::load(sheet, &mut public) {
        Ok(k) => {
            let reply = scheme::reconstruct(k, v, t0, t1, vote, scratch);
            codec::pack(scratch::finish(reply, scratch))
        }
        Err(why) => codec::pack(scratch::finish(Err(why), scratch)),
    }
}

// Writes the pair that commits to a polynomial m: r1 + k1 r2 + k2 r3, then r2 + k3 r3 + m.
#[unsafe(no_mangle)]
pub extern "C" fn jdn_commitment(
    sheet: &[u8],
    m: &[u8],
    r: &[u8],
    pair: &mut [u8],
    scratch: &mut [u8],
) -> u64
    ensures { CallReplied (commitment_order sheet.now m.now r.now pair.old scratch.old)
        (commitment_of sheet.now m.now r.now) result pair.old pair.new scratch.old scratch.new }
{
    let mut public = [0u8; 81920];
    match sheet::load(sheet, &mut public) {
        Ok(k) => {
            let reply = scheme::commitment(k, &public, m, r, pair, scratch);
            codec::pack(scratch::finish(reply, scratch))
        }
        Err(why) => codec::pack(scratch::finish(Err(why), scratch)),
    }
}
