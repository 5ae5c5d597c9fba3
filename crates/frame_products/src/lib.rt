// Number 15 in the check of a signature.
#![tactic(auto)]

ghost use Rattle.std.specs.Prelude.{◌≡◌, ◌<◌, length};
ghost use Rattle.slices.specs.Lists.{found};
ghost use Rattle.compare.specs.Lowest.{lowest};
ghost use Rattle.banquet.specs.Shape.{signature_length};
ghost use Rattle.banquet.specs.Sets.{scheme_of};
ghost use Rattle.banquet.specs.Signature.{frame_of, frame_holds};

use sets::ParameterSet;

// The product check of frame e.
fn frame_holds(set: ParameterSet, s: &[u8], e: usize) -> bool
    requires { (length s.now ≡ signature_length set.shape) × (e < set.shape.executions) }
    ensures { result ≡ frame_holds (scheme_of set.shape) (frame_of (scheme_of set.shape) s.now e) }
{
    let frame = frames::frame(set, s, e);
    product::holds(
        set,
        frames::part(set, 5, frame),
        frames::part(set, 6, frame),
        frames::part(set, 7, frame),
    )
}

// "c isn't the sum of a_j times b_j; place is the lowest such execution".
pub fn first_product(set: ParameterSet, s: &[u8]) -> Option<usize>
    requires { length s.now ≡ signature_length set.shape }
    ensures { result
        ≡ found set.shape.executions (lowest set.shape.executions 0 (λ e. frame_holds (scheme_of set.shape) (frame_of (scheme_of set.shape) s.now e))) }
{
    (0..set.shape.executions).find(|&e| !frame_holds(set, s, e))
}
