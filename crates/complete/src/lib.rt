// Rows of which one is not known, but the sum of all is: "The checker works hidden shares out as sum minus the rest".
#![tactic(auto)]

ghost use Rattle.std.specs.Prelude.{◌≡◌, ◌*◌, ◌<◌, length};
ghost use Rattle.slices.specs.Lists.{rows as rows_of, row};
ghost use Rattle.complete.specs.Complete.{completed_row};

// The hidden row of n rows, whatever it was, is set to what the others leave of the whole, as is `left`.
pub fn complete(n: usize, hidden: usize, whole: &[u8], left: &mut [u8], rows: &mut [u8])
    requires { (hidden < n) × (length rows.old ≡ n * length whole.now) × (length left.old ≡ length whole.now) }
    ensures rows_after { rows.new
        ≡ rows_of (completed_row n hidden whole.now (λ i. row (length whole.now) i rows.old)) n }
    ensures left_after { left.new
        ≡ completed_row n hidden whole.now (λ i. row (length whole.now) i rows.old) hidden }
{
    let a = hidden * whole.len();
    slices::copy_at(rows, a, whole);
    row_sums::sum_rows(n, rows, left);
    slices::copy_at(rows, a, left);
}
