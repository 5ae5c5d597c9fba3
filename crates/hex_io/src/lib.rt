// Bytes in hexadecimal, from standard input and to standard output: what the programs that run test vectors share.
#![tactic(auto)]

ghost use Rattle.std.specs.Prelude.{◌≡◌, ◌*◌, ◌≤◌, length};
ghost use Rattle.banquet.specs.Card.{decoded};

// The most bytes that are written at once.
const MOST: usize = 700;

// Reads two digits for each byte of `out`, and what they stand for. Where the input ends or a read fails the rest of `text` is taken as it was.
pub fn read(rt: HostRuntime, text: &mut [u8], out: &mut [u8])
    requires { length text.old ≡ 2 * length out.old }
    ensures { out.new ≡ decoded text.new }
{
    let _ = stdio::read(rt, text);
    hex_digits::decode(text, out);
}

// Writes two digits for each byte of `s`, and returns how many digits were written: fewer where a write fails.
pub fn print(rt: HostRuntime, s: &[u8]) -> usize
    requires { length s.now ≤ MOST }
    ensures { result ≤ 2 * length s.now }
{
    let mut text = [0u8; 2 * MOST];
    let digits = &mut text[..2 * s.len()];
    hex_digits::encode(s, digits);
    stdio::write(rt, digits)
}
