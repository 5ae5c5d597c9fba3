// Byte slices are compared.
#![tactic(auto)]

ghost use Rattle.std.specs.Prelude.{◌≡◌};
ghost use Rattle.slices.specs.Lists.{same};

// Whether both have as many bytes, and the same.
pub fn equal(a: &[u8], b: &[u8]) -> bool
    ensures { result ≡ same a.now b.now }
{
    a.len() == b.len() && a.iter().zip(b).all(|(x, y)| x == y)
}
