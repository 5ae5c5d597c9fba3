// Reads lines of a key and a plaintext in hexadecimal, and writes for each the ciphertext, what the S-boxes are given (the key schedule's words after
// RotWord(), and then the states at the rounds' starts), and the first S-box that is given zero, 200 where there is none. vectors/aes.py says where
// the lines are from.
#![tactic(auto)]

ghost use Rattle.std.specs.Prelude.{◌≡◌, ◌≤◌, length};

use stdio::ReadFailed;

// Two digits a byte, and a space.
fn print(rt: HostRuntime, s: &[u8])
    requires { length s.now ≤ 200 }
{
    hex_io::print(rt, s);
    stdio::write(rt, b" ");
}

fn encrypt(line: &[u8], inputs: &mut [u8]) -> [u8; 16]
    requires { (length line.now ≡ 66) × (length inputs.old ≡ 200) }
{
    let mut key = [0u8; 16];
    hex_digits::decode(&line[0..32], &mut key);
    let mut plaintext = [0u8; 16];
    hex_digits::decode(&line[33..65], &mut plaintext);
    cipher::encrypt(&key, &plaintext, inputs)
}

fn answer(rt: HostRuntime, line: &[u8])
    requires { length line.now ≡ 66 }
{
    let mut inputs = [0u8; 200];
    let ciphertext = encrypt(line, &mut inputs);
    print(rt, &ciphertext);
    let given: &[u8] = &inputs;
    print(rt, given);
    let first = sbox_inputs::first_zero(given).unwrap_or(200);
    let _ = println!(rt; "{first}");
}

fn main(rt: HostRuntime) {
    let mut line = [0u8; 66];
    for _ in 0..100usize {
        match stdio::read(rt, &mut line) {
            Ok(0) | Err(ReadFailed { length: 0 }) => return,
            _ => answer(rt, &line),
        }
    }
}
