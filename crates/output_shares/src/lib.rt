// The output shares of all parties of an execution, from their tapes.
#![tactic(auto)]

ghost use Rattle.std.specs.Prelude.{◌≡◌, ◌*◌, length};
ghost use Rattle.slices.specs.Lists.{rows, row};
ghost use Rattle.slices.specs.Layout.{total};
ghost use Rattle.banquet.specs.Shape.{sboxes, tape_sizes};
ghost use Rattle.banquet.specs.Sets.{scheme_of};
ghost use Rattle.banquet.specs.Execution.{output_share};
ghost use Rattle.forms.specs.Party.{committed};

use sets::ParameterSet;

// One after the other. `key` and `inverse` are the offsets.
pub fn output_shares(
    set: ParameterSet,
    front: &[u8],
    key: &[u8],
    inverse: &[u8],
    tapes: &[u8],
    out: &mut [u8],
)
    requires { (length front.now ≡ set.shape.front) × (length key.now ≡ 16) × (length inverse.now ≡ sboxes set.shape)
        × (length tapes.now ≡ set.shape.parties * total (tape_sizes set.shape)) × (length out.old ≡ set.shape.parties * 16) }
    ensures { out.new
        ≡ rows (λ i. output_share (scheme_of set.shape) (committed front.now key.now inverse.now) i
        (row (total (tape_sizes set.shape)) i tapes.now)) set.shape.parties }
{
    let size = sets::tape_length(set);
    let sboxes = set.shape.m1 * set.shape.m2;
    let mut inverted = [0u8; 200];
    let mut given = [0u8; 200];
    let inverses = &mut inverted[0..sboxes];
    let inputs = &mut given[0..sboxes];
    let n = set.shape.parties;
    for i in 0..n {
        let a = i * size;
        let b = a + size;
        let share = circuit_shares::walk(
            set,
            i,
            front,
            key,
            inverse,
            &tapes[a..b],
            inverses,
            inputs,
        );
        slices::copy_at(out, i * 16, &share);
    }
}
