// The check of a signature, for any parameter set.
#![tactic(auto)]

ghost use Rattle.std.specs.Prelude.{◌≡◌, [], ◌∷◌, ◌*◌, ◌≤◌, length};
ghost use Rattle.slices.specs.Lists.{rows as rows_of, same};
ghost use Rattle.slices.specs.Layout.{total};
ghost use Rattle.stream.specs.Stream.{absorbed, finished, squeezed};
ghost use Rattle.banquet.specs.declared.Refusal.TheVariants.{FirstHashDiffers, ThirdHashDiffers};
ghost use Rattle.banquet.specs.Shape.{head_length, work_length};
ghost use Rattle.banquet.specs.Sets.{scheme_of};
ghost use Rattle.banquet.specs.Answer.{accepted, in_order};
ghost use Rattle.banquet.specs.Signature.{signature_h1, signature_h3};
ghost use Rattle.banquet.specs.Calls.{checked, verify};
ghost use Rattle.sets.specs.Bounds.{row_sizes};
ghost use Rattle.scratch.specs.Scratch.{Scratch};
ghost use Rattle.check_signature.specs.Steps.{Files, Drawn, h2_of, first_part, third_part, hashes_answer, signature_answer};

use banquet::{Answer, Refusal};
use frame_hashes::Hashes;
use sets::ParameterSet;

// The parts of h1 and h3 of all executions, in one pass over the frames.
fn absorb_executions(
    set: ParameterSet,
    public: &[u8],
    s: &[u8],
    firsts: &[u8],
    seconds: &[u8],
    thirds: &[u8],
    start: Hashes,
    commitments: &mut [u8],
    rows: &mut [u8],
) -> Hashes
    requires { Files set.shape public.now s.now × Drawn set.shape s.now firsts.now seconds.now thirds.now
        × (length commitments.old ≡ set.shape.parties * 32) × (length rows.old ≡ set.shape.parties * total (row_sizes set.shape)) }
    ensures first_value { result.first ≡ absorbed start.first (rows_of (first_part set.shape s.now public.now) set.shape.executions) }
    ensures third_value { result.third ≡ absorbed start.third (rows_of (third_part set.shape s.now public.now) set.shape.executions) }
{
    let n = set.shape.m1 * set.shape.wide;
    let count = set.shape.executions;
    let mut t = start;
    for e in 0..count {
        let a = e * n;
        let b = a + n;
        let u = frame_hashes::absorb_frame(
            set,
            public,
            heads::salt(s),
            e as u8,
            challenges::hidden(set, thirds, e),
            &firsts[a..b],
            challenges::second(set, seconds, e),
            frames::frame(set, s, e),
            t,
            commitments,
            rows,
        );
        t = u;
    }
    t
}

// The same, the challenges being drawn.
fn recomputed(
    set: ParameterSet,
    public: &[u8],
    s: &[u8],
    h2: &[u8],
    start: Hashes,
    commitments: &mut [u8],
    rows: &mut [u8],
) -> Hashes
    requires { Files set.shape public.now s.now × (h2.now ≡ h2_of set.shape s.now) × (length commitments.old ≡ set.shape.parties * 32)
        × (length rows.old ≡ set.shape.parties * total (row_sizes set.shape)) }
    ensures first_value { result.first ≡ absorbed start.first (rows_of (first_part set.shape s.now public.now) set.shape.executions) }
    ensures third_value { result.third ≡ absorbed start.third (rows_of (third_part set.shape s.now public.now) set.shape.executions) }
{
    let n = set.shape.executions;
    let f = n * (set.shape.m1 * set.shape.wide);
    let w = n * set.shape.wide;
    let p = n * 4;
    let mut firsts = [0u8; 2460];
    let mut seconds = [0u8; 246];
    let mut thirds = [0u8; 164];
    hash_inputs::draw(6, heads::h1(s), &mut firsts[0..f]);
    hash_inputs::draw(7, h2, &mut seconds[0..w]);
    hash_inputs::draw(8, heads::h3(s), &mut thirds[0..p]);
    absorb_executions(
        set,
        public,
        s,
        &firsts,
        &seconds,
        &thirds,
        start,
        commitments,
        rows,
    )
}

// Numbers 16 and 17, from what the two hashes have absorbed.
fn compare_hashes(s: &[u8], t: Hashes) -> Answer
    requires { head_length ≤ length s.now }
    ensures { result
        ≡ in_order ((same (squeezed (finished t.first) 32) (signature_h1 s.now), FirstHashDiffers)
        ∷ (same (squeezed (finished t.third) 32) (signature_h3 s.now), ThirdHashDiffers) ∷ []) accepted }
{
    let mut first = [0u8; 32];
    hash_inputs::output(t.first, &mut first);
    if !equal::equal(&first, heads::h1(s)) {
        return Err(Refusal::FirstHashDiffers);
    }
    let mut third = [0u8; 32];
    hash_inputs::output(t.third, &mut third);
    if !equal::equal(&third, heads::h3(s)) {
        return Err(Refusal::ThirdHashDiffers);
    }
    Ok(())
}

// Numbers 16 and 17, where h2 is the signature's own.
fn check_hashes(
    set: ParameterSet,
    public: &[u8],
    message: &[u8],
    s: &[u8],
    h2: &[u8],
    commitments: &mut [u8],
    rows: &mut [u8],
) -> Answer
    requires { Files set.shape public.now s.now × (h2.now ≡ h2_of set.shape s.now) × (length commitments.old ≡ set.shape.parties * 32)
        × (length rows.old ≡ set.shape.parties * total (row_sizes set.shape)) }
    ensures { result ≡ hashes_answer set.shape public.now message.now s.now }
{
    let start = Hashes {
        first: hash_inputs::first_input(public, message, heads::salt(s)),
        third: hash_inputs::tagged(3, h2),
    };
    let t = recomputed(set, public, s, h2, start, commitments, rows);
    compare_hashes(s, t)
}

// Numbers 15, 16 and 17.
fn check_products(
    set: ParameterSet,
    public: &[u8],
    message: &[u8],
    s: &[u8],
    work: &mut [u8],
) -> Answer
    requires { Files set.shape public.now s.now × (work_length ≤ length work.old) }
    ensures value { result ≡ signature_answer set.shape public.now message.now s.now }
    ensures scratch { Scratch work.old work.new }
{
    if let Some(e) = frame_products::first_product(set, s) {
        return Err(Refusal::ProductDiffers(e as u8));
    }
    let h2 = second_hash::second_hash(set, s);
    let mut commitments = [0u8; 4096];
    let c = set.shape.parties * 32;
    let r = set.shape.parties * sets::row_length(set);
    check_hashes(
        set,
        public,
        message,
        s,
        &h2,
        &mut commitments[0..c],
        &mut work[0..r],
    )
}

// The call, which refuses by lengths first.
pub fn check(set: ParameterSet, public: &[u8], message: &[u8], s: &[u8], work: &mut [u8]) -> Answer
    ensures { checked result work.new
        ≡ verify (scheme_of set.shape) public.now message.now s.now work.old }
{
    lengths::verify(set, public.len(), message.len(), s.len(), work.len())?;
    let answer = check_products(set, public, message, s, work);
    scratch::clear(work);
    answer
}
