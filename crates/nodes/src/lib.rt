// The seeds of the two nodes below a node of the tree.
#![tactic(auto)]

ghost use Rattle.std.specs.Prelude.{◌≡◌, length};
ghost use Rattle.shake.specs.Shake128.{shake128};
ghost use Rattle.banquet.specs.Hash.{children as children_of};

// "the seeds of nodes 2v+1 and 2v+2", one after the other.
pub fn children(salt: &[u8], e: u8, node: usize, seed: &[u8]) -> [u8; 32]
    requires { (length salt.now ≡ 32) × (length seed.now ≡ 16) }
    ensures { result ≡ children_of shake128 salt.now e node seed.now }
{
    let mut m = [0u8; 54];
    m[0] = 5;
    m[33] = e;
    numbers::store(&mut m, 34, 4, node as u64);
    slices::copy_at(&mut m, 1, salt);
    slices::copy_at(&mut m, 38, seed);
    let mut pair = [0u8; 32];
    sponge::digest(&m, &mut pair);
    pair
}
