// Fields that stand one after the other in a slice, told apart by their sizes.
#![tactic(auto)]

ghost use Rattle.std.specs.Prelude.{◌≡◌, ◌≤◌, ◌<◌, ◌^◌, length, take};
ghost use Rattle.slices.specs.Layout.{field as field_of, total};

// Where field k begins; for k the number of sizes, where the last ends.
pub fn offset(sizes: &[usize], k: usize) -> usize
    requires { (k ≤ length sizes.now) × (total sizes.now < 2 ^ 63) }
    ensures { result ≡ total (take k sizes.now) }
{
    sizes[..k].iter().sum()
}

// Field k, a part of the slice itself.
pub fn field<'a>(sizes: &[usize], k: usize, s: &'a [u8]) -> &'a [u8]
    requires { (k < length sizes.now) × (total sizes.now ≤ length s.now) × (total sizes.now < 2 ^ 63) }
    ensures { result.now ≡ field_of sizes.now k s.now }
{
    let a = offset(sizes, k);
    let e = offset(sizes, k + 1);
    &s[a..e]
}
