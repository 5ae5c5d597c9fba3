// Products in the fields of X^w + low. Elements of wide fields travel as u64, so that all widths share this code.
#![tactic(auto)]

ghost use Rattle.std.specs.Prelude.{◌≡◌, ◌^◌, ◌≤◌, ◌<◌};
ghost use Rattle.field.specs.Ring.{mul as product, xtime};
ghost use Rattle.field.specs.Fits.{Fits};

// 2 to the power of bits.
fn top(bits: u32) -> u64
    requires { bits ≤ 63 }
    ensures { result ≡ 2 ^ bits }
{
    1 << bits
}

// X times a, where end is 2 to the power of bits.
fn step(bits: u32, end: u64, low: u64, a: u64) -> u64
    requires { (end ≡ 2 ^ bits) × (end ≤ 2 ^ 63) × (a < end) × (low < end) }
    ensures { (result ≡ xtime bits low a) × (result < end) }
{
    let twice = a + a;
    if twice < end {
        twice
    } else {
        (twice - end) ^ low
    }
}

// a times b, bit by bit.
pub fn mul(bits: u32, low: u64, a: u64, b: u64) -> u64
    requires { Fits bits low }
    ensures { result ≡ product bits low a b }
{
    let end = top(bits);
    let mut sum: u64 = 0;
    let mut x = a % end;
    let mut rest = b;
    for _ in 0..bits {
        if rest % 2 == 1 {
            sum ^= x;
        }
        x = step(bits, end, low, x);
        rest /= 2;
    }
    sum
}
