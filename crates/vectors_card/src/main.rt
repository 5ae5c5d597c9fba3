// Texts, altered ones for the most part, are answered as by the programs. A line of input is a kind and digits in hexadecimal; a number takes its
// bytes low byte first.
// b  A text: its count of bytes (3 bytes), a line end, and then the text as it stands, and a line end.
// s  The text is altered: from an index (3) on, a count of bytes (3) are taken out, and some bytes are put in, of which the count (3) stands before
//    them.
// c  What `card` writes of the text. After this, and after r and p, it is again as b had it.
// r  What `sign_card` writes of the text; of a card the first 120 bytes.
// p  What `public_keys` writes of the text as line 300.
// vectors/card.py says where the lines are from.
#![tactic(auto)]

ghost use Rattle.std.specs.Prelude.{◌≡◌, ◌+◌, ◌*◌, ◌≤◌, length};

fn room() -> [u8; 106000]
    ensures { 106000 ≡ length result }
{
    [0; 106000]
}

// The next byte, or 0 where there is none: a line's kind, or its end.
fn next(rt: HostRuntime) -> u8 {
    let mut byte = [0u8; 1];
    let _ = stdio::read(rt, &mut byte);
    byte[0]
}

// The next number of three bytes, or the most where it is less.
fn number(rt: HostRuntime, most: usize) -> usize
    ensures { result ≤ most }
{
    let mut digits = [0u8; 6];
    let mut bytes = [0u8; 3];
    hex_io::read(rt, &mut digits, &mut bytes);
    most.min(numbers::load(&bytes, 0, 3) as usize)
}

// A text, and its length.
fn read_text(rt: HostRuntime, text: &mut [u8]) -> usize
    requires { length text.old ≡ 106000 }
    ensures { (result ≤ 106000) × (length text.new ≡ 106000) }
{
    let n = number(rt, 106000);
    next(rt);
    let _ = stdio::read(rt, &mut text[0..n]);
    next(rt);
    n
}

// From index a on `put` is written, and `behind` after it.
fn join(text: &mut [u8], a: usize, put: &[u8], behind: &[u8])
    requires { a + length put.now + length behind.now ≤ length text.old }
    ensures { length text.new ≡ length text.old }
{
    let b = a + put.len();
    slices::copy_at(text, a, put);
    slices::copy_at(text, b, behind);
}

// The n bytes of the text with `put` in place of those from a to b; returns how many they are then. What has no room is left as it was.
fn replace(text: &mut [u8], n: usize, a: usize, b: usize, put: &[u8]) -> usize
    requires { (length text.old ≡ 106000) × (a ≤ b) × (b ≤ n) × (n ≤ 106000) × (length put.now ≤ 66000) }
    ensures { (result ≤ 106000) × (length text.new ≡ 106000) }
{
    let left = n - b;
    let end = a + put.len() + left;
    if 106000 < end {
        return n;
    }
    let mut behind = room();
    slices::copy_at(&mut behind, 0, &text[b..n]);
    join(text, a, put, &behind[0..left]);
    end
}

// Bytes with their count before them, at the front of `out`; returns the count.
fn read_bytes(rt: HostRuntime, out: &mut [u8]) -> usize
    requires { length out.old ≡ 66000 }
    ensures { (result ≤ 66000) × (length out.new ≡ 66000) }
{
    let m = number(rt, 66000);
    let mut digits = [0u8; 132000];
    let end = 2 * m;
    hex_io::read(rt, &mut digits[0..end], &mut out[0..m]);
    m
}

// The n bytes of the text, altered; returns how many they are then.
fn alter(rt: HostRuntime, text: &mut [u8], n: usize) -> usize
    requires { (length text.old ≡ 106000) × (n ≤ 106000) }
    ensures { (result ≤ 106000) × (length text.new ≡ 106000) }
{
    let a = number(rt, n);
    let b = a + number(rt, n - a);
    let mut put = [0u8; 66000];
    let m = read_bytes(rt, &mut put);
    next(rt);
    replace(text, n, a, b, &put[0..m])
}

fn write_line(rt: HostRuntime, line: &[u8], end: usize) {
    if end <= line.len() {
        stdio::write(rt, &line[0..end]);
    }
}

fn answer_card(rt: HostRuntime, text: &[u8]) {
    let line = print_card::print_card(text);
    let bytes = line.bytes;
    write_line(rt, &bytes, line.length);
}

fn answer_request(rt: HostRuntime, text: &[u8]) {
    let mut card = room();
    let end = requests::print_request(text, &mut card);
    if end <= 120 {
        write_line(rt, &card, end);
        return;
    }
    write_line(rt, &card, 120);
    stdio::write(rt, b"\n");
}

fn answer_pair(rt: HostRuntime, text: &[u8]) {
    let mut public = [0u8; 32];
    let verdict = verdict::verdict(pairs::make_pair(text, &mut public));
    let mut line = [0u8; 65];
    let end = pairs::print_pair(verdict, &public, 300, &mut line);
    write_line(rt, &line, end);
}

fn answer(rt: HostRuntime, kind: u8, text: &[u8]) {
    next(rt);
    if kind == b'c' {
        answer_card(rt, text);
    } else if kind == b'r' {
        answer_request(rt, text);
    } else {
        answer_pair(rt, text);
    }
}

// How many bytes the text has as b had it, and as it is now.
#[derive(Clone, Copy)]
struct Counts {
    whole: usize,
    now: usize,
}

// The text is again as b had it.
fn restore(whole: &[u8], text: &mut [u8], n: usize) -> Counts
    requires { (length whole.now ≡ 106000) × (length text.old ≡ 106000) × (n ≤ 106000) }
    ensures { (result.whole ≤ 106000) × (result.now ≤ 106000) }
{
    slices::copy_at(text, 0, &whole[0..n]);
    Counts { whole: n, now: n }
}

// A line of this kind.
fn step(rt: HostRuntime, kind: u8, whole: &mut [u8], text: &mut [u8], counts: Counts) -> Counts
    requires { (length whole.old ≡ 106000) × (length text.old ≡ 106000) × (counts.whole ≤ 106000) × (counts.now ≤ 106000) }
    ensures { (result.whole ≤ 106000) × (result.now ≤ 106000) }
{
    let n = counts.now;
    if kind == b'b' {
        let long = read_text(rt, whole);
        return restore(whole, text, long);
    }
    if kind == b's' {
        let altered = alter(rt, text, n);
        return Counts {
            whole: counts.whole,
            now: altered,
        };
    }
    answer(rt, kind, &text[0..n]);
    restore(whole, text, counts.whole)
}

fn main(rt: HostRuntime) {
    let mut whole = room();
    let mut text = room();
    let mut counts = Counts { whole: 0, now: 0 };
    for _ in 0..2000usize {
        let kind = next(rt);
        if kind == 0 {
            return;
        }
        counts = step(rt, kind, &mut whole, &mut text, counts);
    }
}
