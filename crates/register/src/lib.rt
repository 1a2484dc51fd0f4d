// The register of ballots over a lent slice (document 01, "Register and session"): find, admit, withdraw, count, turnout.
#![tactic(auto)]

ghost use Rattle.std.specs.Prelude.{◌≡◌, ◌+◌, ◌*◌, ◌≤◌, eqb, length};
ghost use Rattle.codec.specs.Refusal.{as_reply};
ghost use Rattle.register.specs.Orders.{admission_tests};
ghost use Rattle.register.specs.Internal.{Wrote, Withdrew, as_withdrawal};
ghost use Rattle.register.specs.Register as def;

use codec::{Refusal, Reply};

// The length of a register.
pub const REGISTER: usize = 163840;

// The first of the n entries that has the mark; n where none has, which is no failure but the place where a new entry goes.
pub fn find(reg: &[u8], mark: u32, n: usize) -> usize
    requires { 40 * n ≤ length reg.now }
    ensures { (result ≡ def.find reg.now mark n) × (result ≤ n) }
{
    for i in 0..n {
        if codec::read32(reg, 40 * i) == mark {
            return i;
        }
    }
    n
}

// Whether entry i stands.
pub fn is_standing(reg: &[u8], i: usize) -> bool
    requires { 40 * i + 40 ≤ length reg.now }
    ensures { result ≡ eqb (def.state_at reg.now i) 1 }
{
    reg[40 * i + 4] == 1
}

// Writes an entry after n entries: its mark, state and digest.
fn write_entry(reg: &mut [u8], n: usize, mark: &[u8], state: u8, digest: &[u8])
    requires { (40 * n + 40 ≤ length reg.old) × (length mark.now ≡ 4) × (length digest.now ≡ 32) }
    ensures { reg.new ≡ def.appended reg.old n mark.now state digest.now }
{
    let at = 40 * n;
    codec::copy(reg, at, mark);
    codec::write32(reg, at + 4, state as u32);
    codec::copy(reg, at + 8, digest);
}

// Writes the entry of a ballot after n entries.
fn write_admitted(reg: &mut [u8], n: usize, ballot: &[u8])
    requires { (40 * n + 40 ≤ length reg.old) × (4 ≤ length ballot.now) }
    ensures { reg.new ≡ def.admitted reg.old n ballot.now }
{
    let digest = sha3::hash(ballot);
    write_entry(reg, n, &ballot[0..4], 1, &digest);
}

// Admits a ballot after the used entries: 32, 33, 35.
pub fn admit(reg: &mut [u8], used: usize, ballot: &[u8]) -> Reply
    requires { (length reg.old ≡ def.register_length) × (used ≤ def.capacity) × (4 ≤ length ballot.now) }
    ensures { Wrote (admission_tests reg.old used (def.mark_of ballot.now)) (def.admitted reg.old used ballot.now)
        (as_reply result) reg.old reg.new }
{
    let i = find(reg, codec::read32(ballot, 0), used);
    if i < used {
        if is_standing(reg, i) {
            return Err(Refusal::MarkStanding);
        }
        return Err(Refusal::MarkWithdrawn);
    }
    if used == 4096 {
        return Err(Refusal::RegisterFull);
    }
    write_admitted(reg, used, ballot);
    Ok(())
}

// Writes that entry i is withdrawn.
fn write_withdrawn(reg: &mut [u8], i: usize)
    requires { 40 * i + 40 ≤ length reg.old }
    ensures { reg.new ≡ def.withdrawn reg.old i }
{
    codec::write8(reg, 40 * i + 4, 2);
}

// Writes the entry of a mark that is withdrawn before its ballot came, after n entries.
fn write_early(reg: &mut [u8], n: usize, mark: u32)
    requires { 40 * n + 40 ≤ length reg.old }
    ensures { reg.new ≡ def.withdrawn_early reg.old n mark }
{
    let mut bytes = [0u8; 4];
    codec::write32(&mut bytes, 0, mark);
    let digest = [0u8; 32];
    write_entry(reg, n, &bytes, 2, &digest);
}

// What a withdrawal that is taken came to: the mark got an entry, or the one that it had was struck.
#[derive(Clone, Copy, PartialEq, Eq)]
pub enum Withdrawn {
    Entered,
    Struck,
}

// Withdraws a mark, which gets an entry after the used ones if it has none: 33, 35. 35 is asked first, which changes no answer: it needs a
// mark with no entry, and 33 one with an entry. The search gives 4,096 only where all entries are used and none has the mark.
pub fn withdraw(reg: &mut [u8], used: usize, mark: u32) -> Result<Withdrawn, Refusal>
    requires { (length reg.old ≡ def.register_length) × (used ≤ def.capacity) }
    ensures { Withdrew reg.old used mark (as_withdrawal result) reg.new }
{
    let at = find(reg, mark, used);
    if at == 4096 {
        return Err(Refusal::RegisterFull);
    }
    if at == used {
        write_early(reg, used, mark);
        return Ok(Withdrawn::Entered);
    }
    if !is_standing(reg, at) {
        return Err(Refusal::MarkWithdrawn);
    }
    write_withdrawn(reg, at);
    Ok(Withdrawn::Struck)
}

// How many of the first n entries stand.
pub fn count_standing(reg: &[u8], n: usize) -> usize
    requires { 40 * n ≤ length reg.now }
    ensures { (result ≡ length (def.standing reg.now n)) × (result ≤ n) }
{
    let mut count = 0;
    for i in 0..n {
        if is_standing(reg, i) {
            count += 1;
        }
    }
    count
}

// The standing ones of the first n entries in thousandths of the enrolled, half up.
pub fn turnout(reg: &[u8], n: usize, enrolled: u64) -> u32
    requires { (40 * n ≤ length reg.now) × (n ≤ 4096) × (1 ≤ enrolled) × (enrolled ≤ 1000000) }
    ensures { result ≡ def.turnout reg.now n enrolled }
{
    let count = count_standing(reg, n) as u64;
    ((2000 * count + enrolled) / (2 * enrolled)) as u32
}
