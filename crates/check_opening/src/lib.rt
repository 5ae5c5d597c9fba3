// The check of an opening, for any parameter set.
#![tactic(auto)]

ghost use Rattle.std.specs.Prelude.{◌≡◌, ◌*◌, ◌≤◌, length};
ghost use Rattle.slices.specs.Layout.{total};
ghost use Rattle.banquet.specs.Shape.{work_length, public_key_length, transcript_sizes};
ghost use Rattle.banquet.specs.Sets.{scheme_of};
ghost use Rattle.banquet.specs.Opening.{second_of, shown_seed, check_parties, check_opening};
ghost use Rattle.banquet.specs.Calls.{checked, checked_after, verify_opening};
ghost use Rattle.scratch.specs.Scratch.{Scratch};
ghost use Rattle.share_check.specs.Steps.{Given};

use banquet::{Answer, Refusal};
use sets::ParameterSet;

// Numbers 13, 14 and 15, under the seeds that the sibling seeds expand to.
fn check_parties(
    set: ParameterSet,
    public: &[u8],
    transcript: &[u8],
    e: u8,
    second: u64,
    hidden: usize,
    siblings: &[u8],
    work: &mut [u8],
) -> Answer
    requires { Given set.shape public.now transcript.now e second × (length siblings.now ≡ set.shape.depth * 16)
        × (work_length ≤ length work.old) }
    ensures value { result
        ≡ check_parties (scheme_of set.shape) public.now transcript.now hidden
        (shown_seed (scheme_of set.shape) transcript.now hidden siblings.now) }
    ensures scratch { Scratch work.old work.new }
{
    let sizes: &[usize] = &opening_sizes::transcript_sizes(set);
    let end = sets::leaf_bytes(set);
    let mut seeds = [0u8; 2048];
    shown::expand_shown(
        set.shape.depth,
        fields::field(sizes, 0, transcript),
        e,
        0,
        siblings,
        hidden,
        &mut seeds[0..end],
    );
    let leaves: &[u8] = &seeds;
    let c = set.shape.parties * 32;
    let differs = commitment_check::first_commitment(
        set,
        transcript,
        e,
        hidden,
        leaves,
        &mut work[0..c],
    );
    if let Some(i) = differs {
        return Err(Refusal::CommitmentDiffers(i as u8));
    }
    let r = 2 * (set.shape.parties * sets::row_length(set));
    share_check::check_rows(
        set,
        public,
        transcript,
        e,
        second,
        hidden,
        leaves,
        &mut work[0..r],
    )
}

// The second challenge as a number.
fn second_of(set: ParameterSet, transcript: &[u8]) -> u64
    requires { length transcript.now ≡ total (transcript_sizes set.shape) }
    ensures { result ≡ second_of (scheme_of set.shape) transcript.now }
{
    let at = fields::offset(&opening_sizes::transcript_sizes(set), 8);
    numbers::load(transcript, at, set.shape.wide)
}

// Numbers 8, 9 and 10, and then those; after those the work slice's front is zero.
fn check_ranges(
    set: ParameterSet,
    public: &[u8],
    transcript: &[u8],
    hidden: usize,
    siblings: &[u8],
    work: &mut [u8],
) -> Answer
    requires { (length public.now ≡ public_key_length set.shape) × (length transcript.now ≡ total (transcript_sizes set.shape))
        × (length siblings.now ≡ set.shape.depth * 16) × (work_length ≤ length work.old) }
    ensures { checked result work.new
        ≡ checked_after (check_opening (scheme_of set.shape) public.now transcript.now hidden siblings.now)
        work.old }
{
    let e = transcript[32];
    let second = second_of(set, transcript);
    lengths::ranges(set.shape, e as usize, hidden, second)?;
    let answer = check_parties(set, public, transcript, e, second, hidden, siblings, work);
    scratch::clear(work);
    answer
}

// The call, which refuses by lengths first.
pub fn check(set: ParameterSet, public: &[u8], opening: &[u8], work: &mut [u8]) -> Answer
    ensures { checked result work.new
        ≡ verify_opening (scheme_of set.shape) public.now opening.now work.old }
{
    lengths::verify_opening(set, public.len(), opening.len(), work.len())?;
    let end = opening_sizes::transcript_length(set);
    let whole = opening.len();
    let hidden = opening[end] as usize;
    let from = end + 1;
    check_ranges(
        set,
        public,
        &opening[0..end],
        hidden,
        &opening[from..whole],
        work,
    )
}
