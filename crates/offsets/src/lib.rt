// The product offsets: P at the points 20 to 40, with the tapes' shares added.
#![tactic(auto)]

ghost use Rattle.std.specs.Prelude.{◌≡◌, ◌*◌, length, get_or};
ghost use Rattle.std.specs.Int.Bits.{bit_xor};
ghost use Rattle.slices.specs.Lists.{tab, row};
ghost use Rattle.forms.specs.Point.{product_value};

use sets::ParameterSet;

// P at a point: the sum of S_j times T_j.
fn product(set: ParameterSet, first: &[u64], extra: &[u64], u: &[u64], v: &[u64], last: u64) -> u64
    requires { (length first.now ≡ set.shape.m1) × (length extra.now ≡ 2 * set.shape.m1) × (length u.now ≡ set.shape.m1)
        × (length v.now ≡ set.shape.m1) }
    ensures { result ≡ product_value set.shape first.now extra.now u.now v.now last }
{
    let bits = (8 * set.shape.wide) as u32;
    let m = set.shape.m1;
    let mut values_s = [0u64; 10];
    let mut values_t = [0u64; 10];
    let s = &mut values_s[0..m];
    let t = &mut values_t[0..m];
    st_values::values_s(set, first, u, extra, last, s);
    st_values::values_t(set, v, extra, last, t);
    dots::dot(bits, set.shape.low, t, s)
}

// P at the points 20 to 40, each with the number of `shares` added.
pub fn products(
    set: ParameterSet,
    first: &[u64],
    extra: &[u64],
    shares: &[u64],
    us: &[u64],
    vs: &[u64],
    lasts: &[u64],
    out: &mut [u64],
)
    requires { (length first.now ≡ set.shape.m1) × (length extra.now ≡ 2 * set.shape.m1) × (length shares.now ≡ 21)
        × (length us.now ≡ 21 * set.shape.m1) × (length vs.now ≡ 21 * set.shape.m1) × (length lasts.now ≡ 21) × (length out.old ≡ 21) }
    ensures { out.new
        ≡ tab (λ k. bit_xor (product_value set.shape first.now extra.now (row set.shape.m1 k us.now)
        (row set.shape.m1 k vs.now) (get_or lasts.now k 0)) (get_or shares.now k 0)) 21 }
{
    let m = set.shape.m1;
    for k in 0..21 {
        let a = k * m;
        let b = a + m;
        let p = product(set, first, extra, &us[a..b], &vs[a..b], lasts[k]);
        out[k] = p ^ shares[k];
    }
}
