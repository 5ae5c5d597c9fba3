// Blocks of 16 bytes in AES (FIPS 197): their sums, and a block of a slice.
#![tactic(auto)]

ghost use Rattle.std.specs.Prelude.{◌≡◌, ◌+◌, ◌*◌, ◌≤◌, length};
ghost use Rattle.aes.specs.Aes.{add, block};

use std::array;

// 4.1, and 5.1.4 where b is a round key.
pub fn add_blocks(a: [u8; 16], b: [u8; 16]) -> [u8; 16]
    ensures { result ≡ add 16 a b }
{
    array::from_fn(|i| a[i] ^ b[i])
}

// Block n of s.
pub fn block_at(s: &[u8], n: usize) -> [u8; 16]
    requires { n * 16 + 16 ≤ length s.now }
    ensures { result ≡ block s.now n }
{
    let at = n * 16;
    let mut out = [0u8; 16];
    slices::copy(&mut out, &s[at..at + 16]);
    out
}
