// One execution's offsets, as the holder of the key works them out.
#![tactic(auto)]

ghost use Rattle.std.specs.Prelude.{◌≡◌, ◌*◌, ◌≤◌, length};
ghost use Rattle.slices.specs.Lists.{zip_xor, sum_xor, row};
ghost use Rattle.slices.specs.Layout.{total};
ghost use Rattle.banquet.specs.Shape.{sboxes, tape_sizes, first_challenge_length, product_points};
ghost use Rattle.banquet.specs.Sets.{scheme_of};
ghost use Rattle.banquet.specs.Hash.{tape};
ghost use Rattle.banquet.specs.Execution.{tape_part};
ghost use Rattle.forms.specs.Offsets.{worked_offsets};
ghost use Rattle.product_offsets.specs.Given.{Rows};

use sets::ParameterSet;

// "An offset is the true value plus the sum of tape shares."
fn offset_of(value: &[u8], shares: &[u8], out: &mut [u8])
    requires { (length value.now ≡ length out.old) × (length shares.now ≡ length out.old) }
    ensures { out.new ≡ zip_xor value.now shares.now }
{
    slices::copy(out, value);
    xor::xor_into(out, shares);
}

// The offsets of the key and of the inverses.
fn byte_offsets(
    set: ParameterSet,
    key: &[u8],
    inverses: &[u8],
    sum: &[u8],
    offset: &mut [u8],
    inverse: &mut [u8],
)
    requires { (length key.now ≡ 16) × (length inverses.now ≡ sboxes set.shape) × (length sum.now ≡ total (tape_sizes set.shape))
        × (length offset.old ≡ 16) × (length inverse.old ≡ sboxes set.shape) }
    ensures offset_after { offset.new ≡ zip_xor key.now (tape_part (scheme_of set.shape) 0 sum.now) }
    ensures inverse_after { inverse.new ≡ zip_xor inverses.now (tape_part (scheme_of set.shape) 1 sum.now) }
{
    offset_of(key, tapes::tape_part(set, 0, sum), offset);
    offset_of(inverses, tapes::tape_part(set, 1, sum), inverse);
}

// All offsets of an execution.
pub fn offsets(
    set: ParameterSet,
    salt: &[u8],
    e: u8,
    seeds: &[u8],
    key: &[u8],
    inverses: &[u8],
    us: &[u64],
    vs: &[u64],
    lasts: &[u64],
    first: &[u8],
    offset: &mut [u8],
    inverse: &mut [u8],
    product: &mut [u8],
)
    requires { Rows set.shape us.now vs.now lasts.now × (length salt.now ≡ 32) × (set.shape.parties * 16 ≤ length seeds.now)
        × (length key.now ≡ 16) × (length inverses.now ≡ sboxes set.shape) × (length first.now ≡ first_challenge_length set.shape)
        × (length offset.old ≡ 16) × (length inverse.old ≡ sboxes set.shape)
        × (length product.old ≡ product_points set.shape * set.shape.wide) }
    ensures offset_after { offset.new
        ≡ zip_xor key.now (tape_part (scheme_of set.shape) 0 (sum_xor set.shape.parties
        (λ i. tape (scheme_of set.shape) salt.now e i (row 16 i seeds.now)))) }
    ensures inverse_after { inverse.new
        ≡ zip_xor inverses.now (tape_part (scheme_of set.shape) 1 (sum_xor set.shape.parties
        (λ i. tape (scheme_of set.shape) salt.now e i (row 16 i seeds.now)))) }
    ensures product_after { product.new
        ≡ worked_offsets set.shape us.now vs.now lasts.now (sum_xor set.shape.parties
        (λ i. tape (scheme_of set.shape) salt.now e i (row 16 i seeds.now))) first.now }
{
    let size = sets::tape_length(set);
    let mut room = [0u8; 462];
    let added = &mut room[0..size];
    hash_sums::hash_sum(4, salt, e, set.shape.parties, seeds, added);
    let sum: &[u8] = added;
    byte_offsets(set, key, inverses, sum, offset, inverse);
    product_offsets::product_offsets(set, us, vs, lasts, sum, first, product);
}
