// Reads and writes "lower-case hexadecimal", the card's text.
#![tactic(auto)]

ghost use Rattle.std.specs.Prelude.{◌≡◌, ◌*◌, ◌<◌, length};
ghost use Rattle.banquet.specs.Card.{symbol_of, value_of, decoded, digit_of, encoded};
ghost use Rattle.hex_digits.specs.Hex.{half};

use banquet::Symbol;

// What a byte is: "byte ranges for digits, letters, line end and anything else, matched in the text reader".
#[tactic(auto, unfolding(banquet::specs::Card::symbol_of))]
pub fn symbol(byte: u8) -> Symbol
    ensures { result ≡ symbol_of byte }
{
    match byte {
        b'0'..=b'9' => Symbol::Value(byte - b'0'),
        b'a'..=b'f' => Symbol::Value(byte - b'a' + 10),
        b'\n' => Symbol::LineEnd,
        _ => Symbol::Other,
    }
}

// A digit's value; 0 for what is none.
#[tactic(auto, unfolding(banquet::specs::Card::value_of))]
fn value(byte: u8) -> u8
    ensures { (result ≡ value_of (symbol_of byte)) × (result < 16) }
{
    match symbol(byte) {
        Symbol::Value(value) => value,
        _ => 0,
    }
}

// The bytes that a text stands for; in it a byte that is no digit counts 0.
pub fn decode(text: &[u8], out: &mut [u8])
    requires { length text.now ≡ 2 * length out.old }
    ensures { out.new ≡ decoded text.now }
{
    for (i, byte) in out.iter_mut().enumerate() {
        *byte = 16 * value(text[2 * i]) + value(text[2 * i + 1]);
    }
}

#[tactic(auto, unfolding(banquet::specs::Card::digit_of))]
fn digit_of(value: u8) -> u8
    requires { value < 16 }
    ensures { result ≡ digit_of value }
{
    if value < 10 {
        b'0' + value
    } else {
        b'a' + (value - 10)
    }
}

// The high half of a byte for digit 0 of its two, the low half for digit 1.
#[tactic(auto, unfolding(crate::specs::Hex::half))]
fn half_of(b: u8, digit: usize) -> u8
    ensures { result ≡ half b digit }
{
    if digit == 0 { b / 16 } else { b % 16 }
}

// The text that bytes are written as.
pub fn encode(s: &[u8], out: &mut [u8])
    requires { length out.old ≡ 2 * length s.now }
    ensures { out.new ≡ encoded s.now }
{
    for (i, digit) in out.iter_mut().enumerate() {
        *digit = digit_of(half_of(s[i / 2], i % 2) % 16);
    }
}
