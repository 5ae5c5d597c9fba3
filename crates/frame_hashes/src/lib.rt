// An execution's part in the check of a signature, for any parameter set: its parties as the frame shows them, and what h1 and h3 bind of them.
#![tactic(auto)]

ghost use Rattle.std.specs.Prelude.{◌≡◌, ◌++◌, ◌-◌, ◌*◌, ◌<◌, length};
ghost use Rattle.slices.specs.Lists.{rows as rows_of, row};
ghost use Rattle.slices.specs.Layout.{total};
ghost use Rattle.stream.specs.Stream.{absorbed};
ghost use Rattle.columns.specs.Column.{column_of};
ghost use Rattle.complete.specs.Complete.{completed_row};
ghost use Rattle.banquet.specs.Shape.{public_key_length, frame_sizes};
ghost use Rattle.banquet.specs.Sets.{scheme_of};
ghost use Rattle.banquet.specs.Signature.{frame_part};
ghost use Rattle.sets.specs.Bounds.{row_sizes};
ghost use Rattle.frame_hashes.specs.Frame.{seed_shown, whole_row, frame_commitment, frame_row, shown_h1, shown_h3};
ghost use Rattle.frame_hashes.specs.Given.{Given};

use sets::ParameterSet;
use stream::Sponge;

// Two of the hashes, absorbed execution by execution.
#[derive(Clone, Copy)]
pub struct Hashes {
    pub first: Sponge,
    pub third: Sponge,
}

// The hidden party's row is what the others' leave of the sum of all: the ciphertext, and c, a and b, which end the frame.
fn complete_rows(set: ParameterSet, public: &[u8], hidden: usize, frame: &[u8], rows: &mut [u8])
    requires { (length public.now ≡ public_key_length set.shape) × (hidden < set.shape.parties) × (length frame.now ≡ total (frame_sizes set.shape))
        × (length rows.old ≡ set.shape.parties * total (row_sizes set.shape)) }
    ensures { rows.new
        ≡ rows_of (completed_row set.shape.parties hidden (whole_row set.shape public.now frame.now)
        (λ i. row (total (row_sizes set.shape)) i rows.old)) set.shape.parties }
{
    let len = sets::row_length(set);
    let n = len - 16;
    let end = frame.len();
    let mut whole = [0u8; 142];
    let mut left = [0u8; 142];
    slices::copy_at(&mut whole, 0, sets::ciphertext(set.shape, public));
    slices::copy_at(&mut whole, 16, &frame[end - n..end]);
    complete::complete(
        set.shape.parties,
        hidden,
        &whole[0..len],
        &mut left[0..len],
        rows,
    );
}

// The commitments and the rows of all parties, from the seeds that the frame shows. The hidden commitment is the frame's.
fn frame_rows(
    set: ParameterSet,
    public: &[u8],
    salt: &[u8],
    e: u8,
    hidden: usize,
    first: &[u8],
    second: u64,
    frame: &[u8],
    commitments: &mut [u8],
    rows: &mut [u8],
)
    requires { Given set.shape public.now salt.now hidden first.now second frame.now
        × (length commitments.old ≡ set.shape.parties * 32) × (length rows.old ≡ set.shape.parties * total (row_sizes set.shape)) }
    ensures commitments_after { commitments.new
        ≡ rows_of (frame_commitment set.shape public.now salt.now e hidden first.now second frame.now
        (seed_shown set.shape salt.now e hidden frame.now)) set.shape.parties }
    ensures rows_after { rows.new
        ≡ rows_of (frame_row set.shape public.now salt.now e hidden first.now second frame.now
        (seed_shown set.shape salt.now e hidden frame.now)) set.shape.parties }
{
    let end = sets::leaf_bytes(set);
    let mut seeds = [0u8; 2048];
    shown::expand_shown(
        set.shape.depth,
        salt,
        e,
        0,
        frames::part(set, 0, frame),
        hidden,
        &mut seeds[0..end],
    );
    let leaves: &[u8] = &seeds;
    party::hash_rows(0, salt, e, set.shape.parties, 32, leaves, commitments);
    slices::copy_at(commitments, hidden * 32, frames::part(set, 1, frame));
    execution::share_rows(
        set,
        salt,
        e,
        leaves,
        sets::front(set.shape, public),
        frames::part(set, 2, frame),
        frames::part(set, 3, frame),
        first,
        frames::part(set, 4, frame),
        second,
        rows,
    );
    complete_rows(set, public, hidden, frame, rows);
}

// "16 commitments, 16 output shares, key offset, 200 inverse offsets"
fn absorb_first(
    set: ParameterSet,
    s: Sponge,
    frame: &[u8],
    commitments: &[u8],
    rows: &[u8],
) -> Sponge
    requires { (length frame.now ≡ total (frame_sizes set.shape))
        × (length rows.now ≡ set.shape.parties * total (row_sizes set.shape)) }
    ensures { result
        ≡ absorbed s (commitments.now ++ column_of set.shape.parties (total (row_sizes set.shape)) 0 16 rows.now
        ++ frame_part (scheme_of set.shape) frame.now 2 ++ frame_part (scheme_of set.shape) frame.now 3) }
{
    let len = sets::row_length(set);
    let a = absorb::absorb(s, commitments);
    let b = absorb_rows::absorb_column(a, set.shape.parties, len, 0, 16, rows);
    let c = absorb::absorb(b, frames::part(set, 2, frame));
    absorb::absorb(c, frames::part(set, 3, frame))
}

// "the sums c, a, b and each party's c, a, b": the frame's end, and all but the output share of each row.
fn absorb_third(set: ParameterSet, s: Sponge, frame: &[u8], rows: &[u8]) -> Sponge
    requires { (length frame.now ≡ total (frame_sizes set.shape))
        × (length rows.now ≡ set.shape.parties * total (row_sizes set.shape)) }
    ensures { result
        ≡ absorbed s ((frame_part (scheme_of set.shape) frame.now 5 ++ (frame_part (scheme_of set.shape) frame.now 6
        ++ frame_part (scheme_of set.shape) frame.now 7))
        ++ column_of set.shape.parties (total (row_sizes set.shape)) 16 (total (row_sizes set.shape) - 16) rows.now) }
{
    let len = sets::row_length(set);
    let n = len - 16;
    let end = frame.len();
    let a = absorb::absorb(s, &frame[end - n..end]);
    absorb_rows::absorb_column(a, set.shape.parties, len, 16, n, rows)
}

// The execution's parts of h1 and h3 are absorbed. Commitments and rows are scratch.
pub fn absorb_frame(
    set: ParameterSet,
    public: &[u8],
    salt: &[u8],
    e: u8,
    hidden: usize,
    first: &[u8],
    second: u64,
    frame: &[u8],
    hashes: Hashes,
    commitments: &mut [u8],
    rows: &mut [u8],
) -> Hashes
    requires { Given set.shape public.now salt.now hidden first.now second frame.now
        × (length commitments.old ≡ set.shape.parties * 32) × (length rows.old ≡ set.shape.parties * total (row_sizes set.shape)) }
    ensures first_value { result.first
        ≡ absorbed hashes.first (shown_h1 set.shape public.now salt.now e hidden first.now second
        frame.now (seed_shown set.shape salt.now e hidden frame.now)) }
    ensures third_value { result.third
        ≡ absorbed hashes.third (shown_h3 set.shape public.now salt.now e hidden first.now second
        frame.now (seed_shown set.shape salt.now e hidden frame.now)) }
    ensures commitments_after { commitments.new
        ≡ rows_of (frame_commitment set.shape public.now salt.now e hidden first.now second frame.now
        (seed_shown set.shape salt.now e hidden frame.now)) set.shape.parties }
    ensures rows_after { rows.new
        ≡ rows_of (frame_row set.shape public.now salt.now e hidden first.now second frame.now
        (seed_shown set.shape salt.now e hidden frame.now)) set.shape.parties }
{
    frame_rows(
        set,
        public,
        salt,
        e,
        hidden,
        first,
        second,
        frame,
        commitments,
        rows,
    );
    let made: &[u8] = rows;
    Hashes {
        first: absorb_first(set, hashes.first, frame, commitments, made),
        third: absorb_third(set, hashes.third, frame, made),
    }
}
