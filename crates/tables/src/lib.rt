// For fixed coefficients the tables of their products with lifted bytes, in the field of X^bits + low.
#![tactic(auto)]

ghost use Rattle.std.specs.Prelude.{◌≡◌, map, ◌*◌, length, get_or};
ghost use Rattle.slices.specs.Lists.{rows as stacked};
ghost use Rattle.field.specs.Linear.{combine};
ghost use Rattle.field.specs.Ring.{mul as product};
ghost use Rattle.field.specs.Fits.{Fits};
ghost use Rattle.tables.specs.Tables.{halves as halves_of, table_of};

use std::array;

// The sum of those elements whose bit is set in v.
fn combination(p: &[u64], v: usize) -> u64
    ensures { result ≡ combine p.now v }
{
    let mut sum: u64 = 0;
    let mut rest = v;
    for power in p {
        if rest % 2 == 1 {
            sum ^= *power;
        }
        rest /= 2;
    }
    sum
}

// The two tables of eight numbers.
fn halves(p: &[u64; 8], out: &mut [u64])
    requires { length out.old ≡ 32 }
    ensures { out.new ≡ halves_of p.now }
{
    for (n, entry) in out.iter_mut().enumerate() {
        let half = n / 16 * 4;
        *entry = combination(&p[half..half + 4], n % 16);
    }
}

// c times each of eight powers.
fn scaled(bits: u32, low: u64, powers: &[u64], c: u64) -> [u64; 8]
    requires { Fits bits low × (length powers.now ≡ 8) }
    ensures { result ≡ map (product bits low c) powers.now }
{
    array::from_fn(|i| gf::mul(bits, low, c, powers[i]))
}

// The tables of each coefficient, one after the other; the lift of a byte is the combination of the eight powers.
pub fn tables(bits: u32, low: u64, powers: &[u64], coefficients: &[u64], out: &mut [u64])
    requires { Fits bits low × (length powers.now ≡ 8) × (length out.old ≡ length coefficients.now * 32) }
    ensures { out.new
        ≡ stacked (λ k. table_of bits low powers.now (get_or coefficients.now k 0)) (length coefficients.now) }
{
    for (k, c) in coefficients.iter().enumerate() {
        let p = scaled(bits, low, powers, *c);
        halves(&p, &mut out[k * 32..k * 32 + 32]);
    }
}
