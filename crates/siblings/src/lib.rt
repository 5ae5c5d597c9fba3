// The seeds of the siblings on the way to a hidden leaf, which an opening shows.
#![tactic(auto)]

ghost use Rattle.std.specs.Prelude.{◌≡◌, ◌+◌, ◌*◌, ◌^◌, ◌≤◌, length};
ghost use Rattle.shake.specs.Shake128.{shake128};
ghost use Rattle.banquet.specs.Tree.{sibling_seeds};

// The seeds of the siblings on the way from a node to leaf `hidden` below it, "from the top down".
pub fn sibling_seeds(
    depth: usize,
    salt: &[u8],
    e: u8,
    node: usize,
    seed: &[u8],
    hidden: usize,
    out: &mut [u8],
)
    requires { (length salt.now ≡ 32) × (length seed.now ≡ 16) × (length out.old ≡ depth * 16)
        × ((node + 2) * 2 ^ depth ≤ 256) }
    ensures { out.new ≡ sibling_seeds shake128 salt.now e depth node seed.now hidden }
{
    if depth > 0 {
        let seeds = nodes::children(salt, e, node, seed);
        let end = out.len();
        let half = 1 << (depth - 1);
        // The child on the way to the leaf, the leaf among those below it, and where its seed stands.
        let mut child = 2 * node + 1;
        let mut leaf = hidden;
        let mut own = 0;
        if half <= hidden {
            child += 1;
            leaf -= half;
            own = 16;
        }
        let other = 16 - own;
        slices::copy_at(out, 0, &seeds[other..other + 16]);
        sibling_seeds(
            depth - 1,
            salt,
            e,
            child,
            &seeds[own..own + 16],
            leaf,
            &mut out[16..end],
        );
    }
}
