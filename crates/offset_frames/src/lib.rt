// The product offsets of a signature's executions, each into its frame, under the first challenges.
#![tactic(auto)]

ghost use Rattle.std.specs.Prelude.{◌≡◌, ◌*◌, length};
ghost use Rattle.slices.specs.Lists.{rows, row};
ghost use Rattle.slices.specs.Layout.{total};
ghost use Rattle.banquet.specs.Shape.{frame_sizes, first_challenge_length};
ghost use Rattle.product_offsets.specs.Given.{Rows};
ghost use Rattle.signing.specs.Steps.{offset_frame};

use sets::ParameterSet;

// One execution's, from the sum of its tapes, which stands in the frame.
fn offset_frame(
    set: ParameterSet,
    us: &[u64],
    vs: &[u64],
    lasts: &[u64],
    first: &[u8],
    frame: &mut [u8],
)
    requires { Rows set.shape us.now vs.now lasts.now × (length first.now ≡ first_challenge_length set.shape)
        × (length frame.old ≡ total (frame_sizes set.shape)) }
    ensures { frame.new
        ≡ offset_frame set.shape us.now vs.now lasts.now first.now frame.old }
{
    let size = sets::tape_length(set);
    let k = frames::offset(set, 2);
    let p = frames::offset(set, 4);
    let b = k + size;
    let n = 21 * set.shape.wide;
    let mut room = [0u8; 126];
    let products = &mut room[0..n];
    product_offsets::product_offsets(set, us, vs, lasts, &frame[k..b], first, products);
    slices::copy_at(frame, p, products);
}

// Those of all executions. `us`, `vs` and `lasts` are the rows and Lagrange's values at the points 20 to 40.
pub fn offset_frames(
    set: ParameterSet,
    us: &[u64],
    vs: &[u64],
    lasts: &[u64],
    firsts: &[u8],
    frames: &mut [u8],
)
    requires { Rows set.shape us.now vs.now lasts.now × (length firsts.now ≡ set.shape.executions * first_challenge_length set.shape)
        × (length frames.old ≡ set.shape.executions * total (frame_sizes set.shape)) }
    ensures { frames.new
        ≡ rows (λ e. offset_frame set.shape us.now vs.now lasts.now (row (first_challenge_length set.shape) e firsts.now)
        (row (total (frame_sizes set.shape)) e frames.old)) set.shape.executions }
{
    let len = frames::frame_length(set);
    let m = set.shape.m1 * set.shape.wide;
    let n = set.shape.executions;
    for e in 0..n {
        let r = e * m;
        let q = r + m;
        let a = e * len;
        let b = a + len;
        offset_frame(set, us, vs, lasts, &firsts[r..q], &mut frames[a..b]);
    }
}
