// The commitments in the check of an opening, for any parameter set: each shown party's worked out and compared.
#![tactic(auto)]

ghost use Rattle.std.specs.Prelude.{◌≡◌, ◌||◌, ◌*◌, ◌≤◌, eqb, length};
ghost use Rattle.slices.specs.Lists.{found, rows, row, same};
ghost use Rattle.slices.specs.Layout.{total};
ghost use Rattle.compare.specs.Lowest.{lowest};
ghost use Rattle.banquet.specs.Shape.{transcript_sizes};
ghost use Rattle.banquet.specs.Sets.{scheme_of};
ghost use Rattle.banquet.specs.Hash.{commitment};
ghost use Rattle.banquet.specs.Opening.{salt_of, execution_of, commitment_of};

use sets::ParameterSet;

// The lowest shown party whose commitment differs from the stated one.
pub fn first_commitment(
    set: ParameterSet,
    transcript: &[u8],
    e: u8,
    hidden: usize,
    seeds: &[u8],
    scratch: &mut [u8],
) -> Option<usize>
    requires { (length transcript.now ≡ total (transcript_sizes set.shape)) × (e ≡ execution_of (scheme_of set.shape) transcript.now)
        × (set.shape.parties * 16 ≤ length seeds.now) × (length scratch.old ≡ set.shape.parties * 32) }
    ensures value { result
        ≡ found set.shape.parties (lowest set.shape.parties 0 (λ i. eqb i hidden
        || same (commitment (scheme_of set.shape) (salt_of (scheme_of set.shape) transcript.now) e i (row 16 i seeds.now))
        (commitment_of (scheme_of set.shape) transcript.now i))) }
    ensures scratch_after { scratch.new
        ≡ rows (λ i. commitment (scheme_of set.shape) (salt_of (scheme_of set.shape) transcript.now) e i (row 16 i seeds.now))
        set.shape.parties }
{
    let sizes = opening_sizes::transcript_sizes(set);
    party::hash_rows(
        0,
        fields::field(&sizes, 0, transcript),
        e,
        set.shape.parties,
        32,
        seeds,
        scratch,
    );
    let stated = fields::field(&sizes, 2, transcript);
    compare::first_difference(set.shape.parties, 32, hidden, scratch, stated)
}
