// Byte slices are added.
#![tactic(auto)]

ghost use Rattle.std.specs.Prelude.{◌≡◌, length};
ghost use Rattle.slices.specs.Lists.{zip_xor};

// Adds src to dst.
pub fn xor_into(dst: &mut [u8], src: &[u8])
    requires { length dst.old ≡ length src.now }
    ensures { dst.new ≡ zip_xor dst.old src.now }
{
    for (i, d) in dst.iter_mut().enumerate() {
        *d ^= src[i];
    }
}
