// Lagrange's values at a point, and their tables.
#![tactic(auto)]

ghost use Rattle.std.specs.Prelude.{◌≡◌, ◌*◌, ◌^◌, ◌<◌, length};
ghost use Rattle.slices.specs.Lists.{tab};
ghost use Rattle.sets.specs.Laws.{powers_of};
ghost use Rattle.lifts.specs.Fields.{bits_of, low_of, powers_in};
ghost use Rattle.forms.specs.Point.{near, far, tables_at};

use lifts::Field;
use sets::ParameterSet;

// The wide field of a parameter set.
fn field_of(set: ParameterSet) -> Field
    ensures bits { bits_of result ≡ 8 * set.shape.wide }
    ensures low { low_of result ≡ set.shape.low }
    ensures powers { powers_in result ≡ powers_of set.shape }
{
    if set.shape.wide == 4 {
        Field::Bits32
    } else {
        Field::Bits48
    }
}

// Lagrange's values at x for the points 0 to 40.
pub fn far_values(set: ParameterSet, x: u64, out: &mut [u64])
    requires { (x < 2 ^ (8 * set.shape.wide)) × (length out.old ≡ 41) }
    ensures { out.new ≡ tab (far set.shape x) 41 }
{
    lagrange_points::values(field_of(set), x, out);
}

// Into out the tables of Lagrange's values at x for the points 0 to 19; the value for point 20.
pub fn tables(set: ParameterSet, x: u64, out: &mut [u64]) -> u64
    requires { (x < 2 ^ (8 * set.shape.wide)) × (length out.old ≡ 640) }
    ensures value { result ≡ near set.shape x 20 }
    ensures out_after { out.new ≡ tables_at set.shape x }
{
    let field = field_of(set);
    let mut values = [0u64; 21];
    lagrange_points::values(field, x, &mut values);
    let p = field.powers();
    tables::tables(field.bits(), field.low(), &p, &values[0..20], out);
    values[20]
}
