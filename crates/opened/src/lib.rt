// The numbers of one execution: what the tables give for its bytes, and sums.
#![tactic(auto)]

ghost use Rattle.std.specs.Prelude.{◌≡◌, length, get_or};
ghost use Rattle.slices.specs.Lists.{tab};
ghost use Rattle.banquet.specs.Shape.{sboxes};
ghost use Rattle.forms.specs.Point.{tabled_row, xor_sum};

use sets::ParameterSet;

// The sum of elements.
pub fn sum(s: &[u64]) -> u64
    ensures { result ≡ xor_sum (length s.now) (λ k. get_or s.now k 0) }
{
    s.iter().fold(0, |sum, x| sum ^ x)
}

// For each j what the tables give for the bytes j, j + m1, ..
pub fn rows(set: ParameterSet, bytes: &[u8], tables: &[u64], out: &mut [u64])
    requires { (length bytes.now ≡ sboxes set.shape) × (length tables.now ≡ 640) × (length out.old ≡ set.shape.m1) }
    ensures { out.new ≡ tab (tabled_row set.shape bytes.now tables.now) set.shape.m1 }
{
    for (j, row) in out.iter_mut().enumerate() {
        *row = dots::dot_tables(tables, bytes, set.shape.m2, set.shape.m1, j);
    }
}
