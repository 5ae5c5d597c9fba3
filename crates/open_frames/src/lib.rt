// What is opened of a signature's executions under the second challenges, as the holder of the key works it out: the sums c, a and b of each into its
// frame, and its part of h3.
#![tactic(auto)]

ghost use Rattle.std.specs.Prelude.{◌≡◌, ◌*◌, ◌^◌, ◌<◌, length};
ghost use Rattle.slices.specs.Lists.{rows as rows_of, row};
ghost use Rattle.slices.specs.Layout.{total};
ghost use Rattle.stream.specs.Stream.{absorbed};
ghost use Rattle.banquet.specs.Shape.{frame_sizes, first_challenge_length};
ghost use Rattle.banquet.specs.Hash.{evaluation_point};
ghost use Rattle.slices.specs.Numbers.{number_at};
ghost use Rattle.sets.specs.Bounds.{row_sizes};
ghost use Rattle.signing.specs.Steps.{frame_shares, opened_frame, opened_part};

use sets::ParameterSet;
use stream::Sponge;

// All parties' shares, a row for each, with the offsets that stand in the frame.
fn open_rows(
    set: ParameterSet,
    salt: &[u8],
    e: u8,
    root: &[u8],
    front: &[u8],
    first: &[u8],
    second: u64,
    frame: &[u8],
    rows: &mut [u8],
)
    requires { (length salt.now ≡ 32) × (length root.now ≡ 16) × (length front.now ≡ set.shape.front)
        × (length first.now ≡ first_challenge_length set.shape) × (second < 2 ^ (8 * set.shape.wide))
        × (length frame.now ≡ total (frame_sizes set.shape)) × (length rows.old ≡ set.shape.parties * total (row_sizes set.shape)) }
    ensures { rows.new
        ≡ rows_of (frame_shares set.shape front.now salt.now root.now e first.now second frame.now)
        set.shape.parties }
{
    let seeds = leaf_seeds::leaf_seeds(set, salt, e, root);
    execution::share_rows(
        set,
        salt,
        e,
        &seeds,
        front,
        frames::part(set, 2, frame),
        frames::part(set, 3, frame),
        first,
        frames::part(set, 4, frame),
        second,
        rows,
    );
}

// One execution's. The rows are scratch.
fn open_frame(
    set: ParameterSet,
    salt: &[u8],
    e: u8,
    root: &[u8],
    front: &[u8],
    first: &[u8],
    second: u64,
    frame: &mut [u8],
    rows: &mut [u8],
    s: Sponge,
) -> Sponge
    requires { (length salt.now ≡ 32) × (length root.now ≡ 16) × (length front.now ≡ set.shape.front)
        × (length first.now ≡ first_challenge_length set.shape) × (second < 2 ^ (8 * set.shape.wide))
        × (length frame.old ≡ total (frame_sizes set.shape)) × (length rows.old ≡ set.shape.parties * total (row_sizes set.shape)) }
    ensures frame_after { frame.new
        ≡ opened_frame set.shape front.now salt.now root.now e first.now second frame.old }
    ensures value { result
        ≡ absorbed s (opened_part set.shape front.now salt.now root.now e first.now second frame.old) }
{
    open_rows(set, salt, e, root, front, first, second, frame, rows);
    let len = sets::row_length(set);
    let w = len - 16;
    let mut sums = [0u8; 142];
    row_sums::sum_rows(set.shape.parties, rows, &mut sums[0..len]);
    let opened = &sums[16..len];
    let q = frame.len() - w;
    slices::copy_at(frame, q, opened);
    let t = absorb::absorb(s, opened);
    absorb_rows::absorb_column(t, set.shape.parties, len, 16, w, rows)
}

// Those of all executions. `firsts` and `seconds` are the bytes drawn for the challenges.
pub fn open_frames(
    set: ParameterSet,
    salt: &[u8],
    roots: &[u8],
    front: &[u8],
    firsts: &[u8],
    seconds: &[u8],
    frames: &mut [u8],
    rows: &mut [u8],
    start: Sponge,
) -> Sponge
    requires { (length salt.now ≡ 32) × (length roots.now ≡ set.shape.executions * 16) × (length front.now ≡ set.shape.front)
        × (length firsts.now ≡ set.shape.executions * first_challenge_length set.shape) × (length seconds.now ≡ set.shape.executions * set.shape.wide)
        × (length frames.old ≡ set.shape.executions * total (frame_sizes set.shape)) × (length rows.old ≡ set.shape.parties * total (row_sizes set.shape)) }
    ensures frames_after { frames.new
        ≡ rows_of (λ e. opened_frame set.shape front.now salt.now (row 16 e roots.now) e
        (row (first_challenge_length set.shape) e firsts.now) (evaluation_point set.shape.m2 (number_at set.shape.wide e seconds.now))
        (row (total (frame_sizes set.shape)) e frames.old)) set.shape.executions }
    ensures value { result
        ≡ absorbed start (rows_of (λ e. opened_part set.shape front.now salt.now (row 16 e roots.now) e
        (row (first_challenge_length set.shape) e firsts.now) (evaluation_point set.shape.m2 (number_at set.shape.wide e seconds.now))
        (row (total (frame_sizes set.shape)) e frames.old)) set.shape.executions) }
{
    let len = frames::frame_length(set);
    let m = set.shape.m1 * set.shape.wide;
    let n = set.shape.executions;
    let mut t = start;
    for e in 0..n {
        let i = e * 16;
        let j = i + 16;
        let f = e * m;
        let g = f + m;
        let a = e * len;
        let b = a + len;
        let second = challenges::second(set, seconds, e);
        let u = open_frame(
            set,
            salt,
            e as u8,
            &roots[i..j],
            front,
            &firsts[f..g],
            second,
            &mut frames[a..b],
            rows,
            t,
        );
        t = u;
    }
    t
}
