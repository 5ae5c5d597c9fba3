// The refusals of the calls that go by numbers alone, for any parameter set: the lengths of what a call is lent, and the three numbers of an opening.
#![tactic(auto, unfolding(banquet::specs::Answer::require))]

ghost use Rattle.std.specs.Prelude.{◌≡◌};
ghost use Rattle.banquet.specs.Answer.{accepted, in_order};
ghost use Rattle.banquet.specs.Opening.{range_tests};
ghost use Rattle.banquet.specs.Calls.{public_key_tests, sign_tests, verify_tests, open_tests, verify_opening_tests};

use banquet::{Answer, Refusal, Shape};
use sets::ParameterSet;

// Make a public key.
pub fn public_key(set: ParameterSet, key: usize, plaintext: usize, output: usize) -> Answer
    ensures { result ≡ in_order (public_key_tests set.shape key plaintext output) accepted }
{
    if key != 16 {
        return Err(Refusal::KeyLength);
    }
    if plaintext != set.shape.front {
        return Err(Refusal::PublicKeyLength);
    }
    if output < sets::public_key_length(set) {
        return Err(Refusal::FileLength);
    }
    Ok(())
}

// Sign.
pub fn sign(
    set: ParameterSet,
    key: usize,
    public: usize,
    message: usize,
    salt: usize,
    seeds: usize,
    output: usize,
    work: usize,
) -> Answer
    ensures { result ≡ in_order (sign_tests set.shape key public message salt seeds output work) accepted }
{
    if key != 16 {
        return Err(Refusal::KeyLength);
    }
    if public != sets::public_key_length(set) {
        return Err(Refusal::PublicKeyLength);
    }
    if banquet::MESSAGE_LIMIT < message {
        return Err(Refusal::MessageLength);
    }
    if salt != 32 {
        return Err(Refusal::SaltLength);
    }
    if seeds != set.shape.executions * 16 {
        return Err(Refusal::SeedLength);
    }
    if output < frames::signature_length(set) {
        return Err(Refusal::FileLength);
    }
    if work < banquet::WORK_LENGTH {
        return Err(Refusal::WorkLength);
    }
    Ok(())
}

// Check a signature.
pub fn verify(
    set: ParameterSet,
    public: usize,
    message: usize,
    signature: usize,
    work: usize,
) -> Answer
    ensures { result ≡ in_order (verify_tests set.shape public message signature work) accepted }
{
    if public != sets::public_key_length(set) {
        return Err(Refusal::PublicKeyLength);
    }
    if banquet::MESSAGE_LIMIT < message {
        return Err(Refusal::MessageLength);
    }
    if signature != frames::signature_length(set) {
        return Err(Refusal::FileLength);
    }
    if work < banquet::WORK_LENGTH {
        return Err(Refusal::WorkLength);
    }
    Ok(())
}

// Open an execution.
pub fn open(
    set: ParameterSet,
    key: usize,
    public: usize,
    salt: usize,
    root: usize,
    first: usize,
    output: usize,
    work: usize,
) -> Answer
    ensures { result ≡ in_order (open_tests set.shape key public salt root first output work) accepted }
{
    if key != 16 {
        return Err(Refusal::KeyLength);
    }
    if public != sets::public_key_length(set) {
        return Err(Refusal::PublicKeyLength);
    }
    if salt != 32 {
        return Err(Refusal::SaltLength);
    }
    if first != set.shape.m1 * set.shape.wide {
        return Err(Refusal::SaltLength);
    }
    if root != 16 {
        return Err(Refusal::SeedLength);
    }
    if output < opening_sizes::opening_length(set) {
        return Err(Refusal::FileLength);
    }
    if work < banquet::WORK_LENGTH {
        return Err(Refusal::WorkLength);
    }
    Ok(())
}

// Check an opening.
pub fn verify_opening(set: ParameterSet, public: usize, opening: usize, work: usize) -> Answer
    ensures { result ≡ in_order (verify_opening_tests set.shape public opening work) accepted }
{
    if public != sets::public_key_length(set) {
        return Err(Refusal::PublicKeyLength);
    }
    if opening != opening_sizes::opening_length(set) {
        return Err(Refusal::FileLength);
    }
    if work < banquet::WORK_LENGTH {
        return Err(Refusal::WorkLength);
    }
    Ok(())
}

// "An opening's execution is over 40, whether lent for opening or read in a check; 9 and 10 likewise."
pub fn ranges(shape: Shape, e: usize, hidden: usize, second: u64) -> Answer
    ensures { result ≡ in_order (range_tests shape e hidden second) accepted }
{
    if e >= shape.executions {
        return Err(Refusal::ExecutionRange);
    }
    if hidden >= shape.parties {
        return Err(Refusal::HiddenPartyRange);
    }
    if second < (shape.m2 as u64) {
        return Err(Refusal::SecondChallengeRange);
    }
    Ok(())
}
