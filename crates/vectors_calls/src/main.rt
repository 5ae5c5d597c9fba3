// Runs the five calls. A line of input is an index (3 bytes), a count (3) and as many bytes, all in hexadecimal, and a kind. The bytes are put at that
// index of what the calls are lent; a number takes its bytes low byte first. There stand
//     0  twelve numbers of 3 bytes, the last of 4: how many bytes of key, public key, salt, seeds, message, file, output and work are lent, how many
//        of the output are to be the file's; the execution, the hidden party and the second challenge of an opening;
//    40  the key;
//    60  the public key, or the plaintext that one is made of;
//   100  the salt;
//   200  the root seeds, or the one of an opening;
//  1000  the message, or the first challenge of an opening;
// 34000  the file: the signature or opening that is checked, or what is to be written.
// The kind is k where a public key is made, s where a message is signed, v where a signature is checked, o where an execution is opened, c where an
// opening is checked, i where nothing is called. Before a call output and work are ee throughout. After it the file is added to what is to be the
// file's of the output. Written are the answer's number and place, where the work's zeros end, where its ee after them end, and the same of the output.
// vectors/calls.py says where the lines are from.
#![tactic(auto)]

ghost use Rattle.std.specs.Prelude.{◌≡◌, ◌+◌, ◌*◌, ◌≤◌, length};

use banquet::Answer;

// Where a part ends that begins at `from` and has as many bytes as the number at index `at` says: at most at `most`.
fn end(s: &[u8], at: usize, from: usize, most: usize) -> usize
    requires { (at + 3 ≤ length s.now) × (from ≤ most) }
    ensures { (from ≤ result) × (result ≤ most) }
{
    from + (numbers::load(s, at, 3) as usize).min(most - from)
}

// That part.
fn part(s: &[u8], at: usize, from: usize, most: usize) -> &[u8]
    requires { (at + 3 ≤ length s.now) × (from ≤ most) × (most ≤ length s.now) }
    ensures { from + length result.now ≤ most }
{
    let to = end(s, at, from, most);
    &s[from..to]
}

// A line's bytes are put where they belong. Returns its kind, or 0 where there is no line.
fn read_line(rt: HostRuntime, lent: &mut [u8]) -> u8
    requires { length lent.old ≡ 53800 }
{
    let mut text = [0u8; 12];
    let mut head = [0u8; 6];
    hex_io::read(rt, &mut text, &mut head);
    let sizes: &[u8] = &head;
    let a = end(sizes, 0, 0, 53800);
    let b = end(sizes, 3, a, 53800);
    let mut digits = [0u8; 107600];
    let n = 2 * (b - a);
    hex_io::read(rt, &mut digits[0..n], &mut lent[a..b]);
    let mut kind = [0u8; 2];
    let _ = stdio::read(rt, &mut kind);
    kind[0]
}

fn call(kind: u8, lent: &[u8], output: &mut [u8], work: &mut [u8]) -> Answer
    requires { length lent.now ≡ 53800 }
{
    let key = part(lent, 0, 40, 60);
    let public_key = part(lent, 3, 60, 100);
    let salt = part(lent, 6, 100, 200);
    let seeds = part(lent, 9, 200, 1000);
    let message = part(lent, 12, 1000, 34000);
    let file = part(lent, 15, 34000, 53800);
    match kind {
        b'k' => public_key::make_public_key(key, public_key, output),
        b's' => signatures::sign(key, public_key, message, salt, seeds, output, work),
        b'v' => signatures::verify(public_key, message, file, work),
        b'o' => {
            let e = numbers::load(lent, 27, 3) as usize;
            let hidden = numbers::load(lent, 30, 3) as usize;
            let second = (numbers::load(lent, 33, 4) % 4294967296) as u32;
            openings::open(
                key, public_key, salt, seeds, message, e, second, hidden, output, work,
            )
        }
        _ => openings::verify_opening(public_key, file, work),
    }
}

// A space, and n in decimal.
fn tell(rt: HostRuntime, n: usize) {
    let _ = print!(rt; " {n}");
}

// The first index from `at` on that has another byte than b.
fn run(s: &[u8], at: usize, b: u8) -> usize
    requires { at ≤ length s.now }
    ensures { result ≤ length s.now }
{
    at + s[at..].iter().take_while(|x| **x == b).count()
}

// Where its zeros end, and where its ee after them end.
fn tell_ends(rt: HostRuntime, s: &[u8]) {
    let zeros = run(s, 0, 0);
    tell(rt, zeros);
    tell(rt, run(s, zeros, 0xee));
}

// The line for an answer. What is to be the file's of the output is zero where it is.
fn tell_answer(rt: HostRuntime, answer: Answer, lent: &[u8], output: &mut [u8], work: &[u8])
    requires { (length lent.now ≡ 53800) × (length output.old ≡ 19800) }
{
    let expected = part(lent, 24, 34000, 53800);
    let made = expected.len();
    xor::xor_into(&mut output[0..made], expected);
    let verdict = verdict::verdict(answer);
    let number = verdict.number;
    let _ = print!(rt; "{number}");
    tell(rt, verdict.place as usize);
    tell_ends(rt, work);
    tell_ends(rt, output);
    stdio::write(rt, b"\n");
}

// Of output and work so much is lent as the numbers say.
fn answer_call(rt: HostRuntime, kind: u8, lent: &[u8], output: &mut [u8], work: &mut [u8])
    requires { (length lent.now ≡ 53800) × (length output.old ≡ 19800) × (length work.old ≡ 65600) }
{
    let n = end(lent, 18, 0, 19800);
    let w = end(lent, 21, 0, 65600);
    let answer = call(kind, lent, &mut output[0..n], &mut work[0..w]);
    tell_answer(rt, answer, lent, output, work);
}

fn answer(rt: HostRuntime, kind: u8, lent: &[u8])
    requires { length lent.now ≡ 53800 }
{
    if kind == b'i' {
        return;
    }
    let mut output = [0xeeu8; 19800];
    let mut work = [0xeeu8; 65600];
    answer_call(rt, kind, lent, &mut output, &mut work);
}

fn main(rt: HostRuntime) {
    let mut lent = [0u8; 53800];
    for _ in 0..5000usize {
        let kind = read_line(rt, &mut lent);
        if kind == 0 {
            return;
        }
        answer(rt, kind, &lent);
    }
}
