// What a signature's executions are bound to before the first challenge, as the holder of the key works it out: each execution's offsets of key and
// inverses into its frame, and its part of h1.
#![tactic(auto)]

ghost use Rattle.std.specs.Prelude.{◌≡◌, ◌*◌, length, take};
ghost use Rattle.slices.specs.Lists.{rows, row, part, put};
ghost use Rattle.slices.specs.Layout.{total};
ghost use Rattle.stream.specs.Stream.{absorbed};
ghost use Rattle.banquet.specs.Shape.{sboxes, tape_sizes, frame_sizes};
ghost use Rattle.banquet.specs.Sets.{scheme_of};
ghost use Rattle.banquet.specs.Hash.{commitment};
ghost use Rattle.banquet.specs.Execution.{output_share};
ghost use Rattle.banquet.specs.Signer.{seed_of, tape_of};
ghost use Rattle.forms.specs.Party.{committed};
ghost use Rattle.signing.specs.Steps.{offsets_at, witness_length, own_row, own_part};

use sets::ParameterSet;
use stream::Sponge;

// Draws the parties' tapes, and absorbs the parties' commitments.
fn draw_parties(
    set: ParameterSet,
    salt: &[u8],
    e: u8,
    root: &[u8],
    tapes: &mut [u8],
    s: Sponge,
) -> Sponge
    requires { (length salt.now ≡ 32) × (length root.now ≡ 16)
        × (length tapes.old ≡ set.shape.parties * total (tape_sizes set.shape)) }
    ensures tapes_after { tapes.new ≡ rows (tape_of (scheme_of set.shape) salt.now root.now e) set.shape.parties }
    ensures value { result
        ≡ absorbed s (rows (λ i. commitment (scheme_of set.shape) salt.now e i
        (seed_of (scheme_of set.shape) salt.now root.now e i)) set.shape.parties) }
{
    let seeds = leaf_seeds::leaf_seeds(set, salt, e, root);
    let c = set.shape.parties * 32;
    let size = sets::tape_length(set);
    let mut room = [0u8; 4096];
    let commitments = &mut room[0..c];
    party::hash_rows(0, salt, e, set.shape.parties, 32, &seeds, commitments);
    party::hash_rows(4, salt, e, set.shape.parties, size, &seeds, tapes);
    absorb::absorb(s, commitments)
}

// Absorbs the parties' output shares, and then the offsets of key and inverses.
fn absorb_shares(set: ParameterSet, front: &[u8], offsets: &[u8], tapes: &[u8], s: Sponge) -> Sponge
    requires { (length front.now ≡ set.shape.front) × (length offsets.now ≡ witness_length set.shape)
        × (length tapes.now ≡ set.shape.parties * total (tape_sizes set.shape)) }
    ensures { result
        ≡ absorbed (absorbed s (rows (λ i. output_share (scheme_of set.shape)
        (committed front.now (take 16 offsets.now) (part 16 (sboxes set.shape) offsets.now)) i
        (row (total (tape_sizes set.shape)) i tapes.now)) set.shape.parties)) offsets.now }
{
    let o = set.shape.parties * 16;
    let n = offsets.len();
    let mut room = [0u8; 2048];
    let outputs = &mut room[0..o];
    output_shares::output_shares(set, front, &offsets[0..16], &offsets[16..n], tapes, outputs);
    let b = absorb::absorb(s, outputs);
    absorb::absorb(b, offsets)
}

// One execution's: "An offset is the true value plus the sum of tape shares." The tapes are scratch.
fn commit_frame(
    set: ParameterSet,
    salt: &[u8],
    e: u8,
    root: &[u8],
    front: &[u8],
    witness: &[u8],
    frame: &mut [u8],
    tapes: &mut [u8],
    s: Sponge,
) -> Sponge
    requires { (length salt.now ≡ 32) × (length root.now ≡ 16) × (length front.now ≡ set.shape.front)
        × (length witness.now ≡ witness_length set.shape) × (length frame.old ≡ total (frame_sizes set.shape)) × (length tapes.old ≡ set.shape.parties * total (tape_sizes set.shape)) }
    ensures frame_after { frame.new
        ≡ put frame.old (offsets_at set.shape) (own_row set.shape witness.now salt.now root.now e) }
    ensures value { result ≡ absorbed s (own_part set.shape front.now witness.now salt.now root.now e) }
{
    let t = draw_parties(set, salt, e, root, tapes, s);
    let size = sets::tape_length(set);
    let k = frames::offset(set, 2);
    let a = k + witness.len();
    let b = k + size;
    row_sums::sum_rows(set.shape.parties, tapes, &mut frame[k..b]);
    let offsets = &mut frame[k..a];
    xor::xor_into(offsets, witness);
    absorb_shares(set, front, offsets, tapes, t)
}

// Those of all executions. `roots` has their root seeds, `witness` the key and the inverses of the S-boxes' inputs.
pub fn commit_frames(
    set: ParameterSet,
    salt: &[u8],
    roots: &[u8],
    front: &[u8],
    witness: &[u8],
    frames: &mut [u8],
    tapes: &mut [u8],
    start: Sponge,
) -> Sponge
    requires { (length salt.now ≡ 32) × (length roots.now ≡ set.shape.executions * 16) × (length front.now ≡ set.shape.front)
        × (length witness.now ≡ witness_length set.shape) × (length frames.old ≡ set.shape.executions * total (frame_sizes set.shape))
        × (length tapes.old ≡ set.shape.parties * total (tape_sizes set.shape)) }
    ensures frames_after { frames.new
        ≡ rows (λ e. put (row (total (frame_sizes set.shape)) e frames.old) (offsets_at set.shape)
        (own_row set.shape witness.now salt.now (row 16 e roots.now) e)) set.shape.executions }
    ensures value { result
        ≡ absorbed start (rows (λ e. own_part set.shape front.now witness.now salt.now (row 16 e roots.now) e)
        set.shape.executions) }
{
    let len = frames::frame_length(set);
    let n = set.shape.executions;
    let mut t = start;
    for e in 0..n {
        let r = e * 16;
        let q = r + 16;
        let a = e * len;
        let b = a + len;
        let u = commit_frame(
            set,
            salt,
            e as u8,
            &roots[r..q],
            front,
            witness,
            &mut frames[a..b],
            tapes,
            t,
        );
        t = u;
    }
    t
}
