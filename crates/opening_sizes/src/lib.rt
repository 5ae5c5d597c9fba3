// The sizes of an opening, which follow from a parameter set.
#![tactic(auto)]

ghost use Rattle.std.specs.Prelude.{◌≡◌, ◌≤◌};
ghost use Rattle.slices.specs.Layout.{total};
ghost use Rattle.banquet.specs.Shape.{transcript_sizes, opening_length};

use sets::ParameterSet;

pub fn transcript_sizes(set: ParameterSet) -> [usize; 12]
    ensures { result ≡ transcript_sizes set.shape }
{
    let row = set.shape.m1 * set.shape.wide;
    [
        32,
        1,
        set.shape.parties * 32,
        set.shape.parties * 16,
        16,
        set.shape.m1 * set.shape.m2,
        row,
        (set.shape.m2 + 1) * set.shape.wide,
        set.shape.wide,
        set.shape.parties * set.shape.wide,
        set.shape.parties * row,
        set.shape.parties * row,
    ]
}

// The bytes of an opening before the hidden party.
pub fn transcript_length(set: ParameterSet) -> usize
    ensures { (result ≡ total (transcript_sizes set.shape)) × (result ≤ 22713) }
{
    fields::offset(&transcript_sizes(set), 12)
}

// The bytes of an opening.
pub fn opening_length(set: ParameterSet) -> usize
    ensures { (result ≡ opening_length set.shape) × (result ≤ 22826) }
{
    transcript_length(set) + (1 + set.shape.depth * 16)
}
