// What the holder of the key knows at the points 20 to 40: the rows of the S-boxes' inputs and of their inverses. They depend on the key and the
// public key alone, so that one signature's executions share them.
#![tactic(auto)]

ghost use Rattle.std.specs.Prelude.{◌≡◌, ◌+◌, ◌*◌, ◌^◌, ◌<◌, length};
ghost use Rattle.slices.specs.Lists.{tab};
ghost use Rattle.banquet.specs.Shape.{sboxes};
ghost use Rattle.forms.specs.Point.{near, row_at, point_rows, point_lasts};

use sets::ParameterSet;

// For each j the rows of both at x; Lagrange's value there for the extra point.
fn point_rows(
    set: ParameterSet,
    x: u64,
    inputs: &[u8],
    inverses: &[u8],
    u: &mut [u64],
    v: &mut [u64],
) -> u64
    requires { (x < 2 ^ (8 * set.shape.wide)) × (length inputs.now ≡ sboxes set.shape) × (length inverses.now ≡ sboxes set.shape)
        × (length u.old ≡ set.shape.m1) × (length v.old ≡ set.shape.m1) }
    ensures value { result ≡ near set.shape x 20 }
    ensures u_after { u.new ≡ tab (λ j. row_at set.shape inputs.now j x) set.shape.m1 }
    ensures v_after { v.new ≡ tab (λ j. row_at set.shape inverses.now j x) set.shape.m1 }
{
    let mut tables = [0u64; 640];
    let last = points::tables(set, x, &mut tables);
    opened::rows(set, inputs, &tables, u);
    opened::rows(set, inverses, &tables, v);
    last
}

// The same at the points 20 to 40.
pub fn true_rows(
    set: ParameterSet,
    inputs: &[u8],
    inverses: &[u8],
    us: &mut [u64],
    vs: &mut [u64],
    lasts: &mut [u64],
)
    requires { (length inputs.now ≡ sboxes set.shape) × (length inverses.now ≡ sboxes set.shape)
        × (length us.old ≡ 21 * set.shape.m1) × (length vs.old ≡ 21 * set.shape.m1) × (length lasts.old ≡ 21) }
    ensures us_after { us.new ≡ point_rows set.shape inputs.now }
    ensures vs_after { vs.new ≡ point_rows set.shape inverses.now }
    ensures lasts_after { lasts.new ≡ point_lasts set.shape }
{
    let m = set.shape.m1;
    for k in 0..21 {
        let a = k * m;
        let b = a + m;
        lasts[k] = point_rows(
            set,
            (20 + k) as u64,
            inputs,
            inverses,
            &mut us[a..b],
            &mut vs[a..b],
        );
    }
}
