// The seeds of an execution's parties, from its root seed, with room for those of the largest set.
#![tactic(auto)]

ghost use Rattle.std.specs.Prelude.{◌≡◌, ◌++◌, ◌-◌, ◌*◌, ◌^◌, length, replicate};
ghost use Rattle.shake.specs.Shake128.{shake128};
ghost use Rattle.banquet.specs.Tree.{node_seeds, leaves};

use sets::ParameterSet;

// The leaves' seeds, and zeros behind them.
pub fn leaf_seeds(set: ParameterSet, salt: &[u8], e: u8, root: &[u8]) -> [u8; 2048]
    requires { (length salt.now ≡ 32) × (length root.now ≡ 16) }
    ensures { result
        ≡ node_seeds (leaves shake128 salt.now e set.shape.depth 0 root.now) ++ replicate (2048 - 16 * 2 ^ set.shape.depth) 0 }
{
    let mut seeds = [0u8; 2048];
    let end = sets::leaf_bytes(set);
    tree::expand(set.shape.depth, salt, e, 0, root, &mut seeds[0..end]);
    seeds
}
