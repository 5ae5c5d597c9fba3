// Runs SHAKE128 on messages of several lengths, absorbed and squeezed in pieces. A line has the message's length, that of the pieces, that of
// the output, and the output in hex. At the end stands a published example. The file stdout is written by vectors/shake.py.
#![tactic(auto)]

ghost use Rattle.std.specs.Prelude.{◌≡◌, ◌*◌, ◌<◌, ◌≤◌, length};

// The message: byte i is 7 (i + i / 256) modulo 256.
fn fill(input: &mut [u8]) {
    for (i, byte) in input.iter_mut().enumerate() {
        *byte = ((i % 256 + i / 256 % 256) * 7 % 256) as u8;
    }
}

// n in decimal, and a space.
fn write_number(rt: HostRuntime, n: usize) {
    let _ = print!(rt; "{n} ");
}

// src absorbed in pieces of `piece` bytes.
fn pieces(src: &[u8], piece: usize) -> stream::Sponge
    requires { (0 < piece) × (piece ≤ 100000) × (length src.now ≤ 100000) }
{
    let mut s = stream::Sponge::new();
    for part in src.chunks(piece) {
        s = absorb::absorb(s, part);
    }
    s
}

// The next bytes of output, in hex.
fn squeeze_hex(rt: HostRuntime, s: stream::Sponge, out: &mut [u8]) -> stream::Sponge
    requires { length out.old ≤ 700 }
{
    let t = squeeze::squeeze(s, out);
    hex_io::print(rt, out);
    t
}

// The line for the first len bytes of the message and n bytes of output, squeezed in two pieces.
fn show(rt: HostRuntime, len: usize, piece: usize, n: usize)
    requires { (len ≤ 100000) × (0 < piece) × (piece ≤ 100000) × (n ≤ 700) }
{
    let mut input = [0u8; 100000];
    fill(&mut input);
    write_number(rt, len);
    write_number(rt, piece);
    write_number(rt, n);
    let s = pieces(&input[0..len], piece);
    let f = absorb::finish(s);
    let mut first = [0u8; 700];
    let mut second = [0u8; 700];
    let third = n / 3;
    let g = squeeze_hex(rt, f, &mut first[0..third]);
    squeeze_hex(rt, g, &mut second[third..n]);
    stdio::write(rt, b"\n");
}

// NIST's example of 1,600 bits: 200 bytes of a3, and 512 bytes of output.
fn show_example(rt: HostRuntime) {
    let input = [0xa3u8; 200];
    let mut out = [0u8; 512];
    sponge::digest(&input, &mut out);
    hex_io::print(rt, &out);
    stdio::write(rt, b"\n");
}

fn main(rt: HostRuntime) {
    show(rt, 0, 1, 1);
    show(rt, 0, 1, 32);
    show(rt, 166, 1, 32);
    show(rt, 167, 50, 168);
    show(rt, 168, 168, 169);
    show(rt, 169, 13, 336);
    show(rt, 170, 3, 167);
    show(rt, 335, 167, 337);
    show(rt, 336, 168, 1);
    show(rt, 337, 8, 656);
    show(rt, 1000, 999, 700);
    show(rt, 1000, 7, 380);
    show(rt, 100000, 1000, 32);
    show(rt, 100000, 9973, 336);
    show_example(rt);
}
