// The bytes of an execution's product offsets.
#![tactic(auto)]

ghost use Rattle.std.specs.Prelude.{◌≡◌, ◌*◌, length};
ghost use Rattle.slices.specs.Layout.{total};
ghost use Rattle.banquet.specs.Shape.{tape_sizes, first_challenge_length, product_points};
ghost use Rattle.forms.specs.Offsets.{worked_offsets};
ghost use Rattle.product_offsets.specs.Given.{Rows};

use sets::ParameterSet;

// The product offsets, from the rows and Lagrange's values at the points 20 to 40.
pub fn product_offsets(
    set: ParameterSet,
    us: &[u64],
    vs: &[u64],
    lasts: &[u64],
    sum: &[u8],
    first: &[u8],
    out: &mut [u8],
)
    requires { Rows set.shape us.now vs.now lasts.now × (length sum.now ≡ total (tape_sizes set.shape))
        × (length first.now ≡ first_challenge_length set.shape) × (length out.old ≡ product_points set.shape * set.shape.wide) }
    ensures { out.new
        ≡ worked_offsets set.shape us.now vs.now lasts.now sum.now first.now }
{
    let m = set.shape.m1;
    let n = 2 * m;
    let mut drawn = [0u64; 10];
    let mut points = [0u64; 20];
    let draws = &mut drawn[0..m];
    let extra = &mut points[0..n];
    elements::load(set.shape.wide, first, draws);
    elements::load(set.shape.wide, tapes::tape_part(set, 2, sum), extra);
    let mut shares = [0u64; 21];
    elements::load(set.shape.wide, tapes::tape_part(set, 3, sum), &mut shares);
    let mut values = [0u64; 21];
    offsets::products(set, draws, extra, &shares, us, vs, lasts, &mut values);
    elements::store(set.shape.wide, &values, out);
}
