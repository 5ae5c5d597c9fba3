// The seeds of the tree's leaves, from the root's.
#![tactic(auto)]

ghost use Rattle.std.specs.Prelude.{◌≡◌, ◌+◌, ◌*◌, ◌^◌, ◌≤◌, length};
ghost use Rattle.shake.specs.Shake128.{shake128};
ghost use Rattle.banquet.specs.Tree.{node_seeds, leaves};

// The seeds of the leaves below a node: "A subtree is expanded by expanding its two halves."
pub fn expand(depth: usize, salt: &[u8], e: u8, node: usize, seed: &[u8], out: &mut [u8])
    requires { (length salt.now ≡ 32) × (length seed.now ≡ 16) × (length out.old ≡ 16 * 2 ^ depth)
        × ((node + 2) * 2 ^ depth ≤ 256) }
    ensures { out.new ≡ node_seeds (leaves shake128 salt.now e depth node seed.now) }
{
    if depth == 0 {
        slices::copy(out, seed);
    } else {
        let pair = nodes::children(salt, e, node, seed);
        let whole = out.len();
        let half = whole / 2;
        expand(
            depth - 1,
            salt,
            e,
            2 * node + 1,
            &pair[0..16],
            &mut out[0..half],
        );
        expand(
            depth - 1,
            salt,
            e,
            2 * node + 2,
            &pair[16..32],
            &mut out[half..whole],
        );
    }
}
