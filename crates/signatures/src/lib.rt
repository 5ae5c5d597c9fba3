// Two of the five calls, for document 01's set: "seal; check a seal".
#![tactic(auto)]

ghost use Rattle.std.specs.Prelude.{◌≡◌};
ghost use Rattle.banquet.specs.Sets.{base_scheme};
ghost use Rattle.banquet.specs.Calls.{checked, made, sign as sign_of, verify as verify_of};

use banquet::Answer;
use sets::Parties16;

// A signature is checked. After 15 to 17 and on success the work slice's first 65,536 bytes are zero; else it is untouched.
pub fn verify(public: &[u8], message: &[u8], signature: &[u8], work: &mut [u8]) -> Answer
    ensures { checked result work.new
        ≡ verify_of base_scheme public.now message.now signature.now work.old }
{
    let set = Parties16::SET;
    check_signature::check(set, public, message, signature, work)
}

// A message is signed. On success the signature is the output's first 19,776 bytes and the work slice's first 65,536 bytes are zero; a refusal leaves
// both untouched.
pub fn sign(
    key: &[u8],
    public: &[u8],
    message: &[u8],
    salt: &[u8],
    seeds: &[u8],
    out: &mut [u8],
    work: &mut [u8],
) -> Answer
    ensures { made result out.new work.new
        ≡ sign_of base_scheme key.now public.now message.now salt.now seeds.now
        out.old work.old }
{
    let set = Parties16::SET;
    sign_message::sign_message(set, key, public, message, salt, seeds, out, work)
}
