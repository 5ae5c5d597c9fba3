// The product check of an execution, from the bytes of c, a and b.
#![tactic(auto)]

ghost use Rattle.std.specs.Prelude.{◌≡◌, ◌*◌, length};
ghost use Rattle.forms.specs.Sums.{bytes_product_holds};

use sets::ParameterSet;

// c is the sum of a_j times b_j.
pub fn holds(set: ParameterSet, c: &[u8], a: &[u8], b: &[u8]) -> bool
    requires { (length c.now ≡ set.shape.wide) × (length a.now ≡ set.shape.m1 * set.shape.wide)
        × (length b.now ≡ set.shape.m1 * set.shape.wide) }
    ensures { result ≡ bytes_product_holds set.shape c.now a.now b.now }
{
    let bits = (8 * set.shape.wide) as u32;
    let sum = numbers::load(c, 0, set.shape.wide);
    let m = set.shape.m1;
    let mut elements_a = [0u64; 10];
    let mut elements_b = [0u64; 10];
    let x = &mut elements_a[0..m];
    let y = &mut elements_b[0..m];
    elements::load(set.shape.wide, a, x);
    elements::load(set.shape.wide, b, y);
    sum == dots::dot(bits, set.shape.low, y, x)
}
