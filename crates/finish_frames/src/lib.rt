// What a signature's executions show of the tree and of the hidden party, each in its frame.
#![tactic(auto)]

ghost use Rattle.std.specs.Prelude.{◌≡◌, ◌*◌, ◌<◌, length};
ghost use Rattle.slices.specs.Lists.{rows, row};
ghost use Rattle.slices.specs.Numbers.{number_at};
ghost use Rattle.slices.specs.Layout.{total};
ghost use Rattle.banquet.specs.Shape.{frame_sizes};
ghost use Rattle.banquet.specs.Hash.{party_of};
ghost use Rattle.signing.specs.Steps.{finished_frame};

use sets::ParameterSet;

// "four sibling seeds from the top down (64), hidden commitment (32)"
fn finish_frame(set: ParameterSet, salt: &[u8], e: u8, root: &[u8], hidden: usize, frame: &mut [u8])
    requires { (length salt.now ≡ 32) × (length root.now ≡ 16) × (hidden < set.shape.parties)
        × (length frame.old ≡ total (frame_sizes set.shape)) }
    ensures { frame.new ≡ finished_frame set.shape salt.now root.now e hidden frame.old }
{
    let seeds = leaf_seeds::leaf_seeds(set, salt, e, root);
    let d = frames::offset(set, 1);
    let k = frames::offset(set, 2);
    let a = hidden * 16;
    let b = a + 16;
    siblings::sibling_seeds(set.shape.depth, salt, e, 0, root, hidden, &mut frame[0..d]);
    party::hash(0, salt, e, hidden as u8, &seeds[a..b], &mut frame[d..k]);
}

// Those of all executions. `thirds` are the bytes drawn for the hidden parties.
pub fn finish_frames(set: ParameterSet, salt: &[u8], roots: &[u8], thirds: &[u8], frames: &mut [u8])
    requires { (length salt.now ≡ 32) × (length roots.now ≡ set.shape.executions * 16)
        × (length thirds.now ≡ set.shape.executions * 4) × (length frames.old ≡ set.shape.executions * total (frame_sizes set.shape)) }
    ensures { frames.new
        ≡ rows (λ e. finished_frame set.shape salt.now (row 16 e roots.now) e
        (party_of set.shape.parties (number_at 4 e thirds.now)) (row (total (frame_sizes set.shape)) e frames.old)) set.shape.executions }
{
    let len = frames::frame_length(set);
    let n = set.shape.executions;
    for e in 0..n {
        let i = e * 16;
        let j = i + 16;
        let a = e * len;
        let b = a + len;
        let hidden = challenges::hidden(set, thirds, e);
        finish_frame(set, salt, e as u8, &roots[i..j], hidden, &mut frames[a..b]);
    }
}
