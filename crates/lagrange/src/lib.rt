// Lagrange's values in the field of X^bits + low, for the points 0, 1, ..: by products of x - i before and after each point and constant
// weights, with no division, so that x may be a point.
#![tactic(auto)]

ghost use Rattle.std.specs.Prelude.{◌≡◌, length};
ghost use Rattle.slices.specs.Lists.{tab};
ghost use Rattle.field.specs.Wide.{Element};
ghost use Rattle.field.specs.Fits.{Fits};
ghost use Rattle.weights.specs.Weights.{Weights};
ghost use Rattle.lagrange.specs.Values.{upto, lagrange_value};

// The products of x - i over i < k, for each k.
fn prefixes(bits: u32, low: u64, x: u64, out: &mut [u64])
    requires { Fits bits low }
    ensures { out.new ≡ tab (upto bits low x) (length out.old) }
{
    let mut product = 1;
    for (k, v) in out.iter_mut().enumerate() {
        *v = product;
        product = gf::mul(bits, low, product, x ^ (k as u64));
    }
}

// Lagrange's values at x, for as many points as there are weights.
pub fn values(bits: u32, low: u64, x: u64, weights: &[u64], out: &mut [u64])
    requires { Fits bits low × Element bits x × (length out.old ≡ length weights.now)
        × Weights bits low (length weights.now) weights.now }
    ensures { out.new ≡ tab (lagrange_value bits low (length weights.now) x) (length weights.now) }
{
    prefixes(bits, low, x, out);
    let mut product = 1;
    for k in (0..out.len()).rev() {
        let numerator = gf::mul(bits, low, out[k], product);
        out[k] = gf::mul(bits, low, numerator, weights[k]);
        product = gf::mul(bits, low, product, x ^ (k as u64));
    }
}
