// A signature made by the holder of the key, for any parameter set: four passes over its executions, with a hash after each of the first three.
#![tactic(auto)]

ghost use Rattle.std.specs.Prelude.{◌≡◌, ◌∷◌, ◌++◌, ◌+◌, ◌*◌, ◌≤◌, length, take};
ghost use Rattle.slices.specs.Lists.{rows, row, part, put};
ghost use Rattle.slices.specs.Layout.{total};
ghost use Rattle.shake.specs.Shake128.{shake128};
ghost use Rattle.banquet.specs.Shape.{work_length, sboxes, public_key_length, first_challenge_length, frame_sizes, signature_length};
ghost use Rattle.banquet.specs.Sets.{scheme_of};
ghost use Rattle.banquet.specs.Key.{front_of};
ghost use Rattle.banquet.specs.Hash.{first_hash, second_hash, third_hash, first_challenge, second_challenge, hidden_party};
ghost use Rattle.banquet.specs.Signature.{signature};
ghost use Rattle.scratch.specs.Scratch.{Scratch};
ghost use Rattle.forms.specs.Point.{point_rows, point_lasts};
ghost use Rattle.signing.specs.Steps.{offsets_at, witness_length, own_row, own_part, offset_frame, opened_frame, opened_part, finished_frame};
ghost use Rattle.signing.specs.Passes.{Answered};
ghost use Rattle.make_signature.specs.Given.{Given, Frames};

use sets::ParameterSet;

// The offsets of key and inverses into the frames, and h1. The work slice's front is scratch for the tapes of one execution.
fn commit_pass(
    set: ParameterSet,
    key: &[u8],
    inverses: &[u8],
    public: &[u8],
    message: &[u8],
    salt: &[u8],
    roots: &[u8],
    frames: &mut [u8],
    work: &mut [u8],
) -> [u8; 32]
    requires { Frames set.shape frames.old × (length key.now ≡ 16) × (length inverses.now ≡ sboxes set.shape) × (length public.now ≡ public_key_length set.shape)
        × (length salt.now ≡ 32) × (length roots.now ≡ set.shape.executions * 16) × (work_length ≤ length work.old) }
    ensures value { result
        ≡ first_hash (scheme_of set.shape) public.now message.now salt.now
        (λ e. own_part set.shape (front_of (scheme_of set.shape) public.now) (key.now ++ inverses.now) salt.now
        (row 16 e roots.now) e) }
    ensures frames_after { frames.new
        ≡ rows (λ e. put (row (total (frame_sizes set.shape)) e frames.old) (offsets_at set.shape)
        (own_row set.shape (key.now ++ inverses.now) salt.now (row 16 e roots.now) e)) set.shape.executions }
    ensures scratch { Scratch work.old work.new }
{
    let size = set.shape.parties * sets::tape_length(set);
    let n = 16 + inverses.len();
    let mut room = [0u8; 216];
    let witness = &mut room[0..n];
    slices::copy_at(witness, 0, key);
    slices::copy_at(witness, 16, inverses);
    let s = hash_inputs::first_input(public, message, salt);
    let t = commit::commit_frames(
        set,
        salt,
        roots,
        sets::front(set.shape, public),
        witness,
        frames,
        &mut work[0..size],
        s,
    );
    let mut h = [0u8; 32];
    hash_inputs::output(t, &mut h);
    h
}

// The first challenges, under them the product offsets into the frames, and h2: "2: h1, all product offsets; gives h2, 32 bytes."
fn offset_pass(
    set: ParameterSet,
    inputs: &[u8],
    inverses: &[u8],
    h1: &[u8],
    firsts: &mut [u8],
    frames: &mut [u8],
) -> [u8; 32]
    requires { Frames set.shape frames.old × (length inputs.now ≡ sboxes set.shape) × (length inverses.now ≡ sboxes set.shape) × (length h1.now ≡ 32)
        × (length firsts.old ≡ set.shape.executions * first_challenge_length set.shape) }
    ensures firsts_after { firsts.new ≡ shake128 (6 ∷ h1.now) (set.shape.executions * first_challenge_length set.shape) }
    ensures frames_after { frames.new
        ≡ rows (λ e. offset_frame set.shape (point_rows set.shape inputs.now) (point_rows set.shape inverses.now) (point_lasts set.shape)
        (first_challenge (scheme_of set.shape) h1.now e) (row (total (frame_sizes set.shape)) e frames.old)) set.shape.executions }
    ensures value { result
        ≡ second_hash (scheme_of set.shape) h1.now
        (λ e. part (offsets_at set.shape + witness_length set.shape) (21 * set.shape.wide) (row (total (frame_sizes set.shape)) e frames.new)) }
{
    hash_inputs::draw(6, h1, firsts);
    let n = 21 * set.shape.m1;
    let mut input_rows = [0u64; 210];
    let mut inverse_rows = [0u64; 210];
    let mut lasts = [0u64; 21];
    let us = &mut input_rows[0..n];
    let vs = &mut inverse_rows[0..n];
    true_rows::true_rows(set, inputs, inverses, us, vs, &mut lasts);
    offset_frames::offset_frames(set, us, vs, &lasts, firsts, frames);
    let len = frames::frame_length(set);
    let p = frames::offset(set, 4);
    let s = hash_inputs::tagged(2, h1);
    let t = absorb_rows::absorb_column(
        s,
        set.shape.executions,
        len,
        p,
        21 * set.shape.wide,
        frames,
    );
    let mut h = [0u8; 32];
    hash_inputs::output(t, &mut h);
    h
}

// The sums c, a and b under the second challenges into the frames, and h3. The work slice's front is scratch for the shares of one execution.
fn open_pass(
    set: ParameterSet,
    public: &[u8],
    salt: &[u8],
    roots: &[u8],
    h2: &[u8],
    firsts: &[u8],
    frames: &mut [u8],
    work: &mut [u8],
) -> [u8; 32]
    requires { Frames set.shape frames.old × (length public.now ≡ public_key_length set.shape) × (length salt.now ≡ 32)
        × (length roots.now ≡ set.shape.executions * 16)
        × (length h2.now ≡ 32) × (length firsts.now ≡ set.shape.executions * first_challenge_length set.shape) × (work_length ≤ length work.old) }
    ensures value { result
        ≡ third_hash (scheme_of set.shape) h2.now
        (λ e. opened_part set.shape (front_of (scheme_of set.shape) public.now) salt.now (row 16 e roots.now) e
        (row (first_challenge_length set.shape) e firsts.now) (second_challenge (scheme_of set.shape) h2.now e)
        (row (total (frame_sizes set.shape)) e frames.old)) }
    ensures frames_after { frames.new
        ≡ rows (λ e. opened_frame set.shape (front_of (scheme_of set.shape) public.now) salt.now (row 16 e roots.now) e
        (row (first_challenge_length set.shape) e firsts.now) (second_challenge (scheme_of set.shape) h2.now e)
        (row (total (frame_sizes set.shape)) e frames.old)) set.shape.executions }
    ensures scratch { Scratch work.old work.new }
{
    let w = set.shape.executions * set.shape.wide;
    let size = set.shape.parties * sets::row_length(set);
    let mut room = [0u8; 246];
    let seconds = &mut room[0..w];
    hash_inputs::draw(7, h2, seconds);
    let s = hash_inputs::tagged(3, h2);
    let t = open_frames::open_frames(
        set,
        salt,
        roots,
        sets::front(set.shape, public),
        firsts,
        seconds,
        frames,
        &mut work[0..size],
        s,
    );
    let mut h = [0u8; 32];
    hash_inputs::output(t, &mut h);
    h
}

// The rest of the frames, the hidden parties being those of h3.
fn finish_pass(set: ParameterSet, salt: &[u8], roots: &[u8], h3: &[u8], frames: &mut [u8])
    requires { Frames set.shape frames.old × (length salt.now ≡ 32) × (length roots.now ≡ set.shape.executions * 16) × (length h3.now ≡ 32) }
    ensures { frames.new
        ≡ rows (λ e. finished_frame set.shape salt.now (row 16 e roots.now) e
        (hidden_party (scheme_of set.shape) h3.now e) (row (total (frame_sizes set.shape)) e frames.old)) set.shape.executions }
{
    let p = set.shape.executions * 4;
    let mut room = [0u8; 164];
    let thirds = &mut room[0..p];
    hash_inputs::draw(8, h3, thirds);
    finish_frames::finish_frames(set, salt, roots, thirds, frames);
}

// What follows h1: the rest of the frames, and h3.
fn answer_passes(
    set: ParameterSet,
    public: &[u8],
    salt: &[u8],
    roots: &[u8],
    inputs: &[u8],
    inverses: &[u8],
    h1: &[u8],
    frames: &mut [u8],
    work: &mut [u8],
) -> [u8; 32]
    requires { Frames set.shape frames.old × (length public.now ≡ public_key_length set.shape) × (length salt.now ≡ 32)
        × (length roots.now ≡ set.shape.executions * 16)
        × (length inputs.now ≡ sboxes set.shape) × (length inverses.now ≡ sboxes set.shape) × (length h1.now ≡ 32) × (work_length ≤ length work.old) }
    ensures answered { Answered set.shape public.now salt.now roots.now inputs.now inverses.now
        h1.now frames.old result frames.new }
    ensures scratch { Scratch work.old work.new }
{
    let n = set.shape.executions * (set.shape.m1 * set.shape.wide);
    let mut room = [0u8; 2460];
    let firsts = &mut room[0..n];
    let h2 = offset_pass(set, inputs, inverses, h1, firsts, frames);
    let h3 = open_pass(set, public, salt, roots, &h2, firsts, frames, work);
    finish_pass(set, salt, roots, &h3, frames);
    h3
}

// The signature, into a slice of its length; the work slice's front is scratch.
pub fn make(
    set: ParameterSet,
    key: &[u8],
    public: &[u8],
    message: &[u8],
    salt: &[u8],
    roots: &[u8],
    inputs: &[u8],
    inverses: &[u8],
    out: &mut [u8],
    work: &mut [u8],
)
    requires { Given set.shape key.now public.now salt.now roots.now inputs.now inverses.now
        × (length out.old ≡ signature_length set.shape) × (work_length ≤ length work.old) }
    ensures out_after { out.new
        ≡ signature (scheme_of set.shape) key.now public.now message.now salt.now roots.now }
    ensures scratch { Scratch work.old work.new }
{
    let end = out.len();
    let frames = &mut out[heads::LENGTH..end];
    let h1 = commit_pass(
        set, key, inverses, public, message, salt, roots, frames, work,
    );
    let h3 = answer_passes(
        set, public, salt, roots, inputs, inverses, &h1, frames, work,
    );
    heads::write(out, salt, &h1, &h3);
}
