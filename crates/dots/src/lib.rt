// Dot products in the field of X^bits + low: of elements, and, by tables, of fixed coefficients with lifted bytes.
#![tactic(auto)]

ghost use Rattle.std.specs.Prelude.{◌≡◌, ◌*◌, ◌+◌, ◌/◌, ◌%◌, ◌≤◌, ◌<◌, length, get_or};
ghost use Rattle.std.specs.Int.Bits.{bit_xor};
ghost use Rattle.field.specs.Fits.{Fits};
ghost use Rattle.lagrange.specs.Values.{dot_product};
ghost use Rattle.tables.specs.Tables.{tabled};

// The sum of value k times coefficient k, over the values.
pub fn dot(bits: u32, low: u64, coefficients: &[u64], values: &[u64]) -> u64
    requires { Fits bits low × (length values.now ≤ length coefficients.now) }
    ensures { result ≡ dot_product bits low values.now coefficients.now }
{
    let mut sum = 0;
    for (value, coefficient) in values.iter().zip(coefficients) {
        sum ^= gf::mul(bits, low, *value, *coefficient);
    }
    sum
}

// The sum over k < rows of coefficient k times the lift of byte j + k m1, by the coefficients' tables.
pub fn dot_tables(tables: &[u64], bytes: &[u8], rows: usize, m1: usize, j: usize) -> u64
    requires { (rows * 32 ≤ length tables.now) × (rows * m1 ≤ length bytes.now) × (j < m1) }
    ensures { result ≡ tabled rows (λ k. get_or bytes.now (j + k * m1) 0) tables.now }
{
    let mut sum: u64 = 0;
    for k in 0..rows {
        sum ^= entries(tables, k, bytes[j + k * m1]);
    }
    sum
}

// The entries for b in the tables of coefficient k.
fn entries(tables: &[u64], k: usize, b: u8) -> u64
    requires { k * 32 + 32 ≤ length tables.now }
    ensures { result ≡ bit_xor (get_or tables.now (k * 32 + b % 16) 0) (get_or tables.now (k * 32 + (16 + b / 16)) 0) }
{
    let n = b as usize;
    let at = k * 32;
    tables[at + n % 16] ^ tables[at + (16 + n / 16)]
}
