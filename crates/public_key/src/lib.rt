// The first of the five calls: "make a public key (from key and plaintext)".
#![tactic(auto)]

ghost use Rattle.std.specs.Prelude.{◌≡◌};
ghost use Rattle.banquet.specs.Sets.{base_scheme};
ghost use Rattle.banquet.specs.Calls.{written, make_public_key};

use banquet::{Answer, Refusal};
use sets::Parties16;

// "The first that applies is returned." Accepted, the output begins with the public key, and "Output beyond the stated length is untouched"; refused,
// all of it is.
pub fn make_public_key(key: &[u8], plaintext: &[u8], output: &mut [u8]) -> Answer
    ensures { written result output.new
        ≡ make_public_key base_scheme key.now plaintext.now output.old }
{
    let set = Parties16::SET;
    lengths::public_key(set, key.len(), plaintext.len(), output.len())?;
    let mut inputs = [0u8; 200];
    let ciphertext = cipher::encrypt(key, plaintext, &mut inputs);
    // The key schedule's inputs with the rounds': "Some S-box input under the lent key is zero; place is the lowest S-box."
    if let Some(zero) = sbox_inputs::first_zero(&inputs) {
        return Err(Refusal::ZeroInput(zero as u8));
    }
    slices::copy_at(output, 0, plaintext);
    slices::copy_at(output, 16, &ciphertext);
    Ok(())
}
