// The affine transformation of AES's S-box (FIPS 197, 5.1.1), for the cipher and for a party of the circuit, which takes it on shares.
#![tactic(auto)]

ghost use Rattle.std.specs.Prelude.{◌≡◌, map};
ghost use Rattle.std.specs.Int.Bits.{bit_xor};
ghost use Rattle.aes.specs.Aes.{matrix};

// 5.1.1, (5.1): b plus b rotated by 1, 2, 3 and 4 bits, and then c added.
fn affine_byte(b: u8, c: u8) -> u8
    ensures { result ≡ bit_xor (matrix b) c }
{
    b ^ b.rotate_left(1) ^ b.rotate_left(2) ^ b.rotate_left(3) ^ b.rotate_left(4) ^ c
}

// The affine transformation of each byte, with the constant c.
pub fn affine(s: &mut [u8], c: u8)
    ensures { s.new ≡ map (λ b. bit_xor (matrix b) c) s.old }
{
    for b in s.iter_mut() {
        *b = affine_byte(*b, c);
    }
}
