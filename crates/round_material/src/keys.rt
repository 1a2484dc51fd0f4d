// 14: the secret matches b.
ghost use Rattle.std.specs.Prelude.{◌≡◌, ◌*◌, length};
ghost use Rattle.round.specs.Vocabulary.{scratch_length, Free, Loaded, parameters};
ghost use Rattle.round.specs.Producer.{key_matches};

use sheet_numbers::Numbers;

// Whether the sheet's b is a s + p e, for the secrets, which begin with s and e, in ternary bytes.
pub fn matches(work: &mut [u8], k: Numbers, public: &[u8], secrets: &[u8]) -> bool
    requires { Loaded k public.now × (length work.old ≡ scratch_length) × (length secrets.now ≡ 14 * k.ring) }
    ensures { (result ≡ key_matches (parameters k public.now) secrets.now) × Free work.old work.new }
{
    let n = k.ring as usize;
    bgv::noisy(
        work,
        &public[0..8 * n],
        &secrets[0..n],
        &secrets[n..2 * n],
        sheet_numbers::plain(k),
        n,
        k.modulus,
    );
    codec::equal(&work[0..8 * n], &public[8 * n..16 * n])
}
