// The call that signs a message, for any parameter set.
#![tactic(auto)]

ghost use Rattle.std.specs.Prelude.{◌≡◌, ◌≤◌, length};
ghost use Rattle.banquet.specs.Answer.{accepted};
ghost use Rattle.banquet.specs.Shape.{work_length, signature_length};
ghost use Rattle.banquet.specs.Sets.{scheme_of};
ghost use Rattle.banquet.specs.Key.{check_key};
ghost use Rattle.banquet.specs.Signature.{signature};
ghost use Rattle.banquet.specs.Calls.{made, made_after, sign};
ghost use Rattle.sign_message.specs.Lengths.{Lengths};

use banquet::Answer;
use sets::ParameterSet;

// Numbers 11 and 12, and else the signature.
fn sign_key(
    set: ParameterSet,
    key: &[u8],
    public: &[u8],
    message: &[u8],
    salt: &[u8],
    seeds: &[u8],
    out: &mut [u8],
    work: &mut [u8],
) -> Answer
    requires { Lengths set.shape key.now public.now salt.now seeds.now
        × (signature_length set.shape ≤ length out.old) × (work_length ≤ length work.old) }
    ensures { made result out.new work.new
        ≡ made_after (check_key (scheme_of set.shape) public.now key.now accepted)
        (signature (scheme_of set.shape) key.now public.now message.now salt.now seeds.now)
        out.old work.old }
{
    let n = set.shape.m1 * set.shape.m2;
    let mut given = [0u8; 200];
    let mut inverted = [0u8; 200];
    let inputs = &mut given[0..n];
    let inverses = &mut inverted[0..n];
    check_key::check_key(set, key, public, inputs, inverses)?;
    let size = frames::signature_length(set);
    make_signature::make(
        set,
        key,
        public,
        message,
        salt,
        seeds,
        inputs,
        inverses,
        &mut out[0..size],
        work,
    );
    scratch::clear(work);
    Ok(())
}

// The call, which refuses by lengths first.
pub fn sign_message(
    set: ParameterSet,
    key: &[u8],
    public: &[u8],
    message: &[u8],
    salt: &[u8],
    seeds: &[u8],
    out: &mut [u8],
    work: &mut [u8],
) -> Answer
    ensures { made result out.new work.new
        ≡ sign (scheme_of set.shape) key.now public.now message.now salt.now seeds.now
        out.old work.old }
{
    lengths::sign(
        set,
        key.len(),
        public.len(),
        message.len(),
        salt.len(),
        seeds.len(),
        out.len(),
        work.len(),
    )?;
    sign_key(set, key, public, message, salt, seeds, out, work)
}
