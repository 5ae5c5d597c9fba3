// What the S-boxes are given: the inverses of all of it, and the first byte that has none.
#![tactic(auto)]

ghost use Rattle.std.specs.Prelude.{◌≡◌, map, length};
ghost use Rattle.slices.specs.Lists.{found};
ghost use Rattle.field.specs.Byte.{inverse8};
ghost use Rattle.aes.specs.Aes.{first_zero};

// Puts its inverse in place of each byte, 0 for 0.
pub fn invert(s: &mut [u8])
    ensures { s.new ≡ map inverse8 s.old }
{
    for i in 0..s.len() {
        s[i] = inverses::inverse(s[i]);
    }
}

// The index of the first zero, if there is one.
pub fn first_zero(s: &[u8]) -> Option<usize>
    ensures { result ≡ found (length s.now) (first_zero s.now) }
{
    for (i, b) in s.iter().enumerate() {
        if *b == 0 {
            return Some(i);
        }
    }
    None
}
