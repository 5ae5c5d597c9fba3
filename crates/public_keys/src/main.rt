// Makes public keys: from standard input comes in each line a key and a plaintext, 32 digits of hexadecimal each; for each line the public key goes to
// standard output, or `refused` with number and place. It ends at a line that breaks this form, which is refused as 18 with its number, and where a
// read or a write fails.
#![tactic(auto)]

use banquet::Refusal;

// Answers line n, and returns whether another may follow.
fn answer(rt: HostRuntime, pair: &[u8], n: u32) -> bool {
    let mut public = [0u8; 32];
    let made = pairs::make_pair(pair, &mut public);
    let mut line = [0u8; 65];
    let end = pairs::print_pair(verdict::verdict(made), &public, n, &mut line);
    stdio::write(rt, &line[..end]) == end && !matches!(made, Err(Refusal::TextForm(_)))
}

fn main(rt: HostRuntime) {
    for i in 0..4000000000u32 {
        let mut pair = [0u8; 65];
        let Ok(n) = stdio::read(rt, &mut pair) else {
            return;
        };
        if n == 0 || !answer(rt, &pair[..n], i + 1) {
            return;
        }
    }
}
