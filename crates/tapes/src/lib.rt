// The parts of a tape.
#![tactic(auto)]

ghost use Rattle.std.specs.Prelude.{◌≡◌, ◌<◌, length};
ghost use Rattle.slices.specs.Layout.{total};
ghost use Rattle.banquet.specs.Shape.{tape_sizes};
ghost use Rattle.banquet.specs.Sets.{scheme_of};
ghost use Rattle.banquet.specs.Execution.{tape_part};

use sets::ParameterSet;

// Part k of a tape: the share of the key, the shares of the inverses, the extra points, the shares of products.
pub fn tape_part<'a>(set: ParameterSet, k: usize, tape: &'a [u8]) -> &'a [u8]
    requires { (k < 4) × (length tape.now ≡ total (tape_sizes set.shape)) }
    ensures { result.now ≡ tape_part (scheme_of set.shape) k tape.now }
{
    let sizes = sets::tape_sizes(set);
    fields::field(&sizes, k, tape)
}
