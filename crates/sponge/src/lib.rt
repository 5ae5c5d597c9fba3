// SHAKE128 of FIPS 202, section 6.2, of one slice.
#![tactic(auto)]

ghost use Rattle.std.specs.Prelude.{◌≡◌, length};
ghost use Rattle.shake.specs.Shake128.{shake128};

use stream::Sponge;

// out filled with the SHAKE128 output for src.
pub fn digest(src: &[u8], out: &mut [u8])
    ensures { out.new ≡ shake128 src.now (length out.old) }
{
    let s = Sponge::new();
    let a = absorb::absorb(s, src);
    let f = absorb::finish(a);
    squeeze::squeeze(f, out);
}
