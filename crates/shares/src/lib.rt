// One party's walk through AES: from its shares of the key and of the inverses to its shares of the S-boxes' inputs and of the output.
#![tactic(auto)]

ghost use Rattle.std.specs.Prelude.{◌≡◌, ◌++◌, ◌<◌, ◌≤◌, length, drop};
ghost use Rattle.slices.specs.Lists.{rows};
ghost use Rattle.aes.specs.Aes.{add, word, rcon, next_key, key_inputs};
ghost use Rattle.circuit.specs.Circuit.{share, public, round_key_share, expansion_share, entering_share, cipher_share};
ghost use Rattle.circuit.specs.Circuit.{input_shares, output_share};

// A party's share of the public block v.
fn public_share(one: u8, v: &[u8]) -> [u8; 16]
    requires one_bound { one < 2 }
    requires v_len { length v.now ≡ 16 }
    ensures { result ≡ public one 16 v.now }
{
    if one == 0 {
        return [0u8; 16];
    }
    blocks::block_at(v, 0)
}

// The share of the round key after round key n, whose share is k.
fn next_key_share(one: u8, k: [u8; 16], z: &[u8], n: usize) -> [u8; 16]
    requires one_bound { one < 2 }
    requires n_bound { n < 10 }
    requires in_bounds { 40 ≤ length z.now }
    ensures { result ≡ next_key k (add 4 (word z.now n) (public one 4 (rcon n))) }
{
    let at = n * 4;
    let s = [z[at], z[at + 1], z[at + 2], z[at + 3]];
    key_schedule::key_step(k, s, one * key_schedule::round_constant(n))
}

// The output's share, and into inputs those of what the 200 S-boxes are given, where they give z.
fn rounds(one: u8, key: &[u8], plaintext: &[u8], z: &[u8], inputs: &mut [u8]) -> [u8; 16]
    requires one_bound { one < 2 }
    requires key_len { length key.now ≡ 16 }
    requires plaintext_len { length plaintext.now ≡ 16 }
    requires z_len { length z.now ≡ 200 }
    requires inputs_len { length inputs.old ≡ 200 }
    ensures value { result ≡ cipher_share (expansion_share one key.now z.now) (drop 40 z.now) }
    ensures inputs_after { inputs.new ≡ key_inputs (round_key_share one key.now z.now)
        ++ rows (entering_share (expansion_share one key.now z.now) (public one 16 plaintext.now)
        (drop 40 z.now)) 10 }
{
    let mut k = blocks::block_at(key, 0);
    let mut x = blocks::add_blocks(public_share(one, plaintext), k);
    for n in 0..10 {
        slices::copy_at(inputs, n * 4, &key_schedule::key_input(k));
        slices::copy_at(inputs, 40 + n * 16, &x);
        let next = next_key_share(one, k, z, n);
        x = steps::round(n, blocks::block_at(&z[40..200], n), next);
        k = next;
    }
    x
}

// AES: the output's share, and into inputs those of what the 200 S-boxes are given. `one` is 1 for party 0, and 0 for the others.
pub fn aes_circuit(
    one: u8,
    key: &[u8],
    plaintext: &[u8],
    inverses: &[u8],
    inputs: &mut [u8],
) -> [u8; 16]
    requires one_bound { one < 2 }
    requires key_len { length key.now ≡ 16 }
    requires plaintext_len { length plaintext.now ≡ 16 }
    requires inverses_len { length inverses.now ≡ 200 }
    requires inputs_len { length inputs.old ≡ 200 }
    ensures value { result ≡ output_share (share one key.now inverses.now) }
    ensures inputs_after { inputs.new ≡ input_shares plaintext.now (share one key.now inverses.now) }
{
    let mut z = [0u8; 200];
    slices::copy(&mut z, inverses);
    affine::affine(&mut z, one * 0x63);
    rounds(one, key, plaintext, &z, inputs)
}
