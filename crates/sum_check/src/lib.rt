// The end of an opening's check, which looks at the sum of the stated rows alone.
#![tactic(auto)]

ghost use Rattle.std.specs.Prelude.{◌≡◌, ◌*◌, length};
ghost use Rattle.slices.specs.Lists.{row, sum_xor};
ghost use Rattle.slices.specs.Layout.{total};
ghost use Rattle.sets.specs.Bounds.{row_sizes};
ghost use Rattle.forms.specs.Sums.{sums_answer};

use banquet::{Answer, Refusal};
use sets::ParameterSet;

// The end of the check: the sum of the output shares is the ciphertext, and the product holds.
pub fn check_sums(
    set: ParameterSet,
    ciphertext: &[u8],
    e: u8,
    rows: &[u8],
    sums: &mut [u8],
) -> Answer
    requires { (length rows.now ≡ set.shape.parties * total (row_sizes set.shape)) × (length sums.old ≡ total (row_sizes set.shape)) }
    ensures value { result
        ≡ sums_answer set.shape ciphertext.now e (sum_xor set.shape.parties (λ i. row (total (row_sizes set.shape)) i rows.now)) }
    ensures sums_after { sums.new ≡ sum_xor set.shape.parties (λ i. row (total (row_sizes set.shape)) i rows.now) }
{
    row_sums::sum_rows(set.shape.parties, rows, sums);
    let whole: &[u8] = sums;
    if !equal::equal(&whole[0..16], ciphertext) {
        return Err(Refusal::ShareDiffers(set.shape.parties as u8));
    }
    let sizes: &[usize] = &sets::row_sizes(set);
    let holds = product::holds(
        set,
        fields::field(sizes, 1, whole),
        fields::field(sizes, 2, whole),
        fields::field(sizes, 3, whole),
    );
    if !holds {
        return Err(Refusal::ProductDiffers(e));
    }
    Ok(())
}
