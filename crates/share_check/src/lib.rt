// The shares in the check of an opening, for any parameter set: each shown party's worked out and compared, and the sums of all.
#![tactic(auto)]

ghost use Rattle.std.specs.Prelude.{◌≡◌, ◌++◌, ◌*◌, ◌≤◌, length};
ghost use Rattle.slices.specs.Lists.{rows as rows_of, row};
ghost use Rattle.slices.specs.Layout.{total};
ghost use Rattle.banquet.specs.Sets.{scheme_of};
ghost use Rattle.banquet.specs.Opening.{check_shares};
ghost use Rattle.sets.specs.Bounds.{row_sizes};
ghost use Rattle.forms.specs.Stated.{stated_row};
ghost use Rattle.share_check.specs.Steps.{Given, made_row, rows_answer};

use banquet::{Answer, Refusal};
use sets::ParameterSet;

// The stated rows of all parties, and behind them those worked out from the seeds.
fn fill_rows(
    set: ParameterSet,
    public: &[u8],
    transcript: &[u8],
    e: u8,
    second: u64,
    seeds: &[u8],
    rows: &mut [u8],
)
    requires { Given set.shape public.now transcript.now e second × (set.shape.parties * 16 ≤ length seeds.now)
        × (length rows.old ≡ 2 * (set.shape.parties * total (row_sizes set.shape))) }
    ensures { rows.new
        ≡ rows_of (stated_row set.shape transcript.now) set.shape.parties
        ++ rows_of (made_row set.shape public.now transcript.now seeds.now) set.shape.parties }
{
    let sizes: &[usize] = &opening_sizes::transcript_sizes(set);
    let whole = rows.len();
    let half = whole / 2;
    stated::rows(set, transcript, &mut rows[0..half]);
    execution::share_rows(
        set,
        fields::field(sizes, 0, transcript),
        e,
        seeds,
        sets::front(set.shape, public),
        fields::field(sizes, 4, transcript),
        fields::field(sizes, 5, transcript),
        fields::field(sizes, 6, transcript),
        fields::field(sizes, 7, transcript),
        second,
        &mut rows[half..whole],
    );
}

// Numbers 14 and 15 for the rows worked out and those stated.
fn compare_rows(
    set: ParameterSet,
    ciphertext: &[u8],
    e: u8,
    hidden: usize,
    made: &[u8],
    stated: &[u8],
) -> Answer
    requires { (length made.now ≡ set.shape.parties * total (row_sizes set.shape))
        × (length stated.now ≡ set.shape.parties * total (row_sizes set.shape)) }
    ensures { result
        ≡ rows_answer set.shape ciphertext.now e hidden made.now stated.now }
{
    let len = sets::row_length(set);
    if let Some(i) = compare::first_difference(set.shape.parties, len, hidden, made, stated) {
        return Err(Refusal::ShareDiffers(i as u8));
    }
    let mut sums = [0u8; 142];
    sum_check::check_sums(set, ciphertext, e, stated, &mut sums[0..len])
}

// Numbers 14 and 15, with scratch for the stated rows and those worked out.
pub fn check_rows(
    set: ParameterSet,
    public: &[u8],
    transcript: &[u8],
    e: u8,
    second: u64,
    hidden: usize,
    seeds: &[u8],
    rows: &mut [u8],
) -> Answer
    requires { Given set.shape public.now transcript.now e second × (set.shape.parties * 16 ≤ length seeds.now)
        × (length rows.old ≡ 2 * (set.shape.parties * total (row_sizes set.shape))) }
    ensures value { result ≡ check_shares (scheme_of set.shape) public.now transcript.now hidden (λ i. row 16 i seeds.now) }
    ensures rows_after { rows.new
        ≡ rows_of (stated_row set.shape transcript.now) set.shape.parties
        ++ rows_of (made_row set.shape public.now transcript.now seeds.now) set.shape.parties }
{
    fill_rows(set, public, transcript, e, second, seeds, rows);
    let whole = rows.len();
    let half = whole / 2;
    compare_rows(
        set,
        sets::ciphertext(set.shape, public),
        e,
        hidden,
        &rows[half..whole],
        &rows[0..half],
    )
}
