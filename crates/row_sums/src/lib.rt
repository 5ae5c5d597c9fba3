// The sum of rows that stand one after the other.
#![tactic(auto)]

ghost use Rattle.std.specs.Prelude.{◌≡◌, ◌*◌, ◌<◌, length};
ghost use Rattle.slices.specs.Lists.{row, sum_xor};

// The sum of n rows, each as long as out.
pub fn sum_rows(n: usize, rows: &[u8], out: &mut [u8])
    requires { (0 < n) × (length rows.now ≡ n * length out.old) }
    ensures { out.new ≡ sum_xor n (λ i. row (length out.old) i rows.now) }
{
    let len = out.len();
    slices::zero(out);
    for j in 0..n {
        let a = j * len;
        let b = a + len;
        xor::xor_into(out, &rows[a..b]);
    }
}
