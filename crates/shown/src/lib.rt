// The seeds of the tree's leaves that the sibling seeds of a hidden leaf show.
#![tactic(auto)]

ghost use Rattle.std.specs.Prelude.{◌≡◌, ◌+◌, ◌*◌, ◌^◌, ◌≤◌, length};
ghost use Rattle.shake.specs.Shake128.{shake128};
ghost use Rattle.banquet.specs.Tree.{node_seeds, shown_leaves};

// The seeds of the leaves below a node, from the seeds of the siblings on the way to leaf `hidden`, from the top down; zeros for that leaf.
pub fn expand_shown(
    depth: usize,
    salt: &[u8],
    e: u8,
    node: usize,
    seeds: &[u8],
    hidden: usize,
    out: &mut [u8],
)
    requires { (length salt.now ≡ 32) × (length seeds.now ≡ depth * 16) × (length out.old ≡ 16 * 2 ^ depth)
        × ((node + 2) * 2 ^ depth ≤ 256) }
    ensures { out.new
        ≡ node_seeds (shown_leaves shake128 salt.now e depth node seeds.now hidden) }
{
    if depth == 0 {
        slices::zero(out);
    } else {
        let end = seeds.len();
        let whole = out.len();
        let half = whole / 2;
        let middle = half / 16;
        if hidden < middle {
            expand_shown(
                depth - 1,
                salt,
                e,
                2 * node + 1,
                &seeds[16..end],
                hidden,
                &mut out[0..half],
            );
            tree::expand(
                depth - 1,
                salt,
                e,
                2 * node + 2,
                &seeds[0..16],
                &mut out[half..whole],
            );
        } else {
            tree::expand(
                depth - 1,
                salt,
                e,
                2 * node + 1,
                &seeds[0..16],
                &mut out[0..half],
            );
            expand_shown(
                depth - 1,
                salt,
                e,
                2 * node + 2,
                &seeds[16..end],
                hidden - middle,
                &mut out[half..whole],
            );
        }
    }
}
