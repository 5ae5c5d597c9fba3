// The steps of a round of AES (FIPS 197, 5.1), for the cipher and for a party of the circuit, which takes them on shares.
#![tactic(auto)]

ghost use Rattle.std.specs.Prelude.{◌≡◌, ◌<◌};
ghost use Rattle.field.specs.Byte.{mul8};
ghost use Rattle.aes.specs.Aes.{add, shift_rows, mix_columns};
ghost use Rattle.steps.specs.Steps.{below, doubled_plus};

use std::array;

// 5.1.2: row r moves r columns to the left.
fn shift_rows(s: [u8; 16]) -> [u8; 16]
    ensures { result ≡ shift_rows s }
{
    array::from_fn(|i| {
        let r = i % 4;
        let c = i / 4;
        s[r + 4 * ((c + r) % 4)]
    })
}

// 4.2.1: 02 times a.
fn double(a: u8) -> u8
    ensures { result ≡ mul8 2 a }
{
    let shifted = a << 1;
    if a < 0x80 { shifted } else { shifted ^ 0x1b }
}

// Each byte's neighbour below it in its column.
fn below(x: [u8; 16]) -> [u8; 16]
    ensures { result ≡ below x }
{
    array::from_fn(|i| {
        let r = i % 4;
        let c = i / 4;
        x[(r + 1) % 4 + 4 * c]
    })
}

// 02 u + t + v.
fn doubled_plus(u: [u8; 16], t: [u8; 16], v: [u8; 16]) -> [u8; 16]
    ensures { result ≡ doubled_plus u t v }
{
    array::from_fn(|i| double(u[i]) ^ t[i] ^ v[i])
}

// 5.1.3: 02 a + 03 b + c + d is 02 (a + b) + b + (c + d).
fn mix_columns(s: [u8; 16]) -> [u8; 16]
    ensures { result ≡ mix_columns s }
{
    let t = below(s);
    let u = blocks::add_blocks(s, t);
    doubled_plus(u, t, below(below(u)))
}

// What round n makes of the S-boxes' outputs s, with the round key k; round 9, the last, mixes no columns.
pub fn round(n: usize, s: [u8; 16], k: [u8; 16]) -> [u8; 16]
    requires { n < 10 }
    ensures value { n < 9 → result ≡ add 16 (mix_columns (shift_rows s)) k }
    ensures value_2 { n ≡ 9 → result ≡ add 16 (shift_rows s) k }
{
    let shifted = shift_rows(s);
    if n == 9 {
        return blocks::add_blocks(shifted, k);
    }
    blocks::add_blocks(mix_columns(shifted), k)
}
