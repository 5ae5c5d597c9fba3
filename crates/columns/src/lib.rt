// Columns of rows that stand one after the other.
#![tactic(auto)]

ghost use Rattle.std.specs.Prelude.{◌≡◌, ◌+◌, ◌*◌, ◌≤◌, length};
ghost use Rattle.columns.specs.Column.{column_of};

// Of each of n rows the len bytes from index at on.
pub fn column(n: usize, stride: usize, at: usize, len: usize, rows: &[u8], out: &mut [u8])
    requires { (length rows.now ≡ n * stride) × (at + len ≤ stride) × (length out.old ≡ n * len) }
    ensures { out.new ≡ column_of n stride at len rows.now }
{
    for i in 0..n {
        let a = i * stride + at;
        let b = a + len;
        slices::copy_at(out, i * len, &rows[a..b]);
    }
}
