// The values of S_j and T_j at a point.
#![tactic(auto)]

ghost use Rattle.std.specs.Prelude.{◌≡◌, ◌+◌, ◌*◌, length, get_or};
ghost use Rattle.slices.specs.Lists.{tab};
ghost use Rattle.forms.specs.Point.{value_s, value_t};

use sets::ParameterSet;

// S_j at a point for each j, from the first challenge, the rows, the extra points (s and t for each j) and Lagrange's value for them.
pub fn values_s(
    set: ParameterSet,
    first: &[u64],
    rows: &[u64],
    extra: &[u64],
    last: u64,
    out: &mut [u64],
)
    requires { (length first.now ≡ set.shape.m1) × (length rows.now ≡ set.shape.m1) × (length extra.now ≡ 2 * set.shape.m1)
        × (length out.old ≡ set.shape.m1) }
    ensures { out.new
        ≡ tab (λ j. value_s set.shape (get_or first.now j 0) (get_or rows.now j 0) (get_or extra.now (2 * j) 0) last)
        set.shape.m1 }
{
    let bits = (8 * set.shape.wide) as u32;
    for (j, value) in out.iter_mut().enumerate() {
        let scaled = gf::mul(bits, set.shape.low, first[j], rows[j]);
        *value = scaled ^ gf::mul(bits, set.shape.low, extra[2 * j], last);
    }
}

// T_j at a point for each j.
pub fn values_t(set: ParameterSet, rows: &[u64], extra: &[u64], last: u64, out: &mut [u64])
    requires { (length rows.now ≡ set.shape.m1) × (length extra.now ≡ 2 * set.shape.m1) × (length out.old ≡ set.shape.m1) }
    ensures { out.new
        ≡ tab (λ j. value_t set.shape (get_or rows.now j 0) (get_or extra.now (2 * j + 1) 0) last) set.shape.m1 }
{
    let bits = (8 * set.shape.wide) as u32;
    for (j, value) in out.iter_mut().enumerate() {
        *value = rows[j] ^ gf::mul(bits, set.shape.low, extra[2 * j + 1], last);
    }
}
