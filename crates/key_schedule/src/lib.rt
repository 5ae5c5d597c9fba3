// Key expansion in AES (FIPS 197, 5.2), a round key at a time, for the cipher and for a party of the circuit, which takes it on shares.
#![tactic(auto)]

ghost use Rattle.std.specs.Prelude.{◌≡◌, [], ◌∷◌, ◌<◌, get_or};
ghost use Rattle.aes.specs.Aes.{add, round_constants, next_key, key_input};

// RotWord() of the last word of a round key.
pub fn key_input(k: [u8; 16]) -> [u8; 4]
    ensures { result ≡ key_input k }
{
    [k[13], k[14], k[15], k[12]]
}

const ROUND_CONSTANTS: [u8; 10] = [0x01, 0x02, 0x04, 0x08, 0x10, 0x20, 0x40, 0x80, 0x1b, 0x36];

// The first byte of Rcon[n + 1].
pub fn round_constant(n: usize) -> u8
    requires { n < 10 }
    ensures { result ≡ get_or round_constants n 0 }
{
    ROUND_CONSTANTS[n]
}

// The round key after k, where temp is added to the first word, and each word to the next.
fn next_key(k: [u8; 16], temp: [u8; 4]) -> [u8; 16]
    ensures { result ≡ next_key k temp }
{
    let mut out = [0u8; 16];
    for i in 0..16 {
        let before = if i < 4 { temp[i] } else { out[i - 4] };
        out[i] = k[i] ^ before;
    }
    out
}

// The round key after k: s is what SubWord() gives, and c the first byte of Rcon.
pub fn key_step(k: [u8; 16], s: [u8; 4], c: u8) -> [u8; 16]
    ensures { result ≡ next_key k (add 4 s (c ∷ 0 ∷ 0 ∷ 0 ∷ [])) }
{
    next_key(k, [s[0] ^ c, s[1], s[2], s[3]])
}
