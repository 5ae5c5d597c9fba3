// The head of a signature: "salt, h1, h3 (32 each)". Its parts, as parts of the signature itself, and how it is written.
#![tactic(auto)]

ghost use Rattle.std.specs.Prelude.{◌≡◌, [], ◌∷◌, ◌++◌, ◌≤◌, length, drop};
ghost use Rattle.slices.specs.Layout.{layout};
ghost use Rattle.banquet.specs.Shape.{head_length};
ghost use Rattle.banquet.specs.Signature.{signature_salt, signature_h1, signature_h3};

// Its bytes.
pub const LENGTH: usize = 96;

pub fn salt<'a>(s: &'a [u8]) -> &'a [u8]
    requires { head_length ≤ length s.now }
    ensures { result.now ≡ signature_salt s.now }
{
    &s[0..32]
}

pub fn h1<'a>(s: &'a [u8]) -> &'a [u8]
    requires { head_length ≤ length s.now }
    ensures { result.now ≡ signature_h1 s.now }
{
    &s[32..64]
}

pub fn h3<'a>(s: &'a [u8]) -> &'a [u8]
    requires { head_length ≤ length s.now }
    ensures { result.now ≡ signature_h3 s.now }
{
    &s[64..96]
}

// The head, in front of what `out` holds behind it.
pub fn write(out: &mut [u8], salt: &[u8], h1: &[u8], h3: &[u8])
    requires { (head_length ≤ length out.old) × (length salt.now ≡ 32) × (length h1.now ≡ 32) × (length h3.now ≡ 32) }
    ensures { out.new
        ≡ layout (salt.now ∷ h1.now ∷ h3.now ∷ []) ++ drop head_length out.old }
{
    slices::copy_at(out, 0, salt);
    slices::copy_at(out, 32, h1);
    slices::copy_at(out, 64, h3);
}
