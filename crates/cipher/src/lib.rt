// AES-128 (FIPS 197), with what its S-boxes are given.
#![tactic(auto)]

ghost use Rattle.std.specs.Prelude.{◌≡◌, map, ◌<◌, length};
ghost use Rattle.aes.specs.Aes.{sbox, add, rcon, sub_word, next_key, key_input, aes, sbox_inputs};

// SubBytes() and SubWord(): the S-box of each byte.
fn substitute(s: &mut [u8])
    ensures { s.new ≡ map sbox s.old }
{
    sbox_inputs::invert(s);
    affine::affine(s, 0x63);
}

// The round key after round key n, which is k.
fn next_round_key(k: [u8; 16], n: usize) -> [u8; 16]
    requires { n < 10 }
    ensures { result ≡ next_key k (add 4 (sub_word (key_input k)) (rcon n)) }
{
    let mut s = key_schedule::key_input(k);
    substitute(&mut s);
    key_schedule::key_step(k, s, key_schedule::round_constant(n))
}

// The ciphertext, and into inputs what the 200 S-boxes are given.
pub fn encrypt(key: &[u8], plaintext: &[u8], inputs: &mut [u8]) -> [u8; 16]
    requires key_len { length key.now ≡ 16 }
    requires plaintext_len { length plaintext.now ≡ 16 }
    requires inputs_len { length inputs.old ≡ 200 }
    ensures value { result ≡ aes key.now plaintext.now }
    ensures inputs_after { inputs.new ≡ sbox_inputs key.now plaintext.now }
{
    let mut k = blocks::block_at(key, 0);
    let mut x = blocks::add_blocks(blocks::block_at(plaintext, 0), k);
    for n in 0..10 {
        slices::copy_at(inputs, n * 4, &key_schedule::key_input(k));
        slices::copy_at(inputs, 40 + n * 16, &x);
        let next = next_round_key(k, n);
        substitute(&mut x);
        x = steps::round(n, x, next);
        k = next;
    }
    x
}
