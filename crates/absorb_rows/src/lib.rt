// A column of rows absorbed, without a copy.
#![tactic(auto)]

ghost use Rattle.std.specs.Prelude.{◌≡◌, ◌+◌, ◌*◌, ◌≤◌, length};
ghost use Rattle.columns.specs.Column.{column_of};
ghost use Rattle.stream.specs.Stream.{absorbed};

use stream::Sponge;

// Of each of n rows the len bytes from index at on.
pub fn absorb_column(
    s: Sponge,
    n: usize,
    stride: usize,
    at: usize,
    len: usize,
    rows: &[u8],
) -> Sponge
    requires { (length rows.now ≡ n * stride) × (at + len ≤ stride) }
    ensures { result ≡ absorbed s (column_of n stride at len rows.now) }
{
    let mut t = s;
    for i in 0..n {
        let a = i * stride + at;
        let b = a + len;
        let u = absorb::absorb(t, &rows[a..b]);
        t = u;
    }
    t
}
