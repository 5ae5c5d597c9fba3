// Whether a key is good for a public key, for any parameter set, and what the S-boxes are given under it, with the inverses. The key schedule's inputs are
// tested with the rounds'.
#![tactic(auto)]

ghost use Rattle.std.specs.Prelude.{◌≡◌, length};
ghost use Rattle.banquet.specs.Answer.{accepted};
ghost use Rattle.banquet.specs.Shape.{sboxes, public_key_length};
ghost use Rattle.banquet.specs.Scheme.{true_inverses};
ghost use Rattle.banquet.specs.Sets.{scheme_of};
ghost use Rattle.banquet.specs.Key.{front_of, check_key};

use banquet::{Answer, Refusal};
use sets::ParameterSet;

// Numbers 11 and 12; what the S-boxes are given, and its inverses.
pub fn check_key(
    set: ParameterSet,
    key: &[u8],
    public: &[u8],
    inputs: &mut [u8],
    inverses: &mut [u8],
) -> Answer
    requires { (length key.now ≡ 16) × (length public.now ≡ public_key_length set.shape) × (length inputs.old ≡ sboxes set.shape)
        × (length inverses.old ≡ sboxes set.shape) }
    ensures value { result ≡ check_key (scheme_of set.shape) public.now key.now accepted }
    ensures inputs_after { inputs.new ≡ (scheme_of set.shape).circuit.sbox_inputs (front_of (scheme_of set.shape) public.now) key.now }
    ensures inverses_after { inverses.new ≡ true_inverses (scheme_of set.shape) (front_of (scheme_of set.shape) public.now) key.now }
{
    let ciphertext = cipher::encrypt(key, sets::front(set.shape, public), inputs);
    slices::copy(inverses, inputs);
    sbox_inputs::invert(inverses);
    if let Some(zero) = sbox_inputs::first_zero(inputs) {
        return Err(Refusal::ZeroInput(zero as u8));
    }
    if !equal::equal(&ciphertext, sets::ciphertext(set.shape, public)) {
        return Err(Refusal::WrongKey);
    }
    Ok(())
}
