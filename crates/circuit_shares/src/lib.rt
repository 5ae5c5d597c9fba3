// A party's own shares of key and inverses, and what it works out of them: the output's share and the S-boxes' input shares.
#![tactic(auto)]

ghost use Rattle.std.specs.Prelude.{◌≡◌, length};
ghost use Rattle.slices.specs.Layout.{total};
ghost use Rattle.poly.specs.Index.{at};
ghost use Rattle.banquet.specs.Shape.{sboxes, tape_sizes};
ghost use Rattle.banquet.specs.Sets.{scheme_of};
ghost use Rattle.banquet.specs.Execution.{inverse_shares, input_shares, output_share};
ghost use Rattle.forms.specs.Party.{committed, own as own_share};

use sets::ParameterSet;

// A party's own share: "Party 0 alone adds offsets".
pub fn own(i: usize, share: &[u8], offset: &[u8], out: &mut [u8])
    requires { (length share.now ≡ length out.old) × (length offset.now ≡ length out.old) }
    ensures { out.new ≡ own_share i share.now offset.now }
{
    slices::copy(out, share);
    if i != 0 {
        return;
    }
    xor::xor_into(out, offset);
}

// Party i's share of the number 1.
fn one(i: usize) -> u8
    ensures { result ≡ at i 0 1 0 }
{
    if i == 0 { 1 } else { 0 }
}

// The output's share, and the shares of the inverses and of the S-boxes' inputs.
pub fn walk(
    set: ParameterSet,
    i: usize,
    front: &[u8],
    key: &[u8],
    inverse: &[u8],
    tape: &[u8],
    inverses: &mut [u8],
    inputs: &mut [u8],
) -> [u8; 16]
    requires { (length front.now ≡ set.shape.front) × (length key.now ≡ 16) × (length inverse.now ≡ sboxes set.shape)
        × (length tape.now ≡ total (tape_sizes set.shape)) × (length inverses.old ≡ sboxes set.shape) × (length inputs.old ≡ sboxes set.shape) }
    ensures value { result
        ≡ output_share (scheme_of set.shape) (committed front.now key.now inverse.now) i tape.now }
    ensures inverses_after { inverses.new
        ≡ inverse_shares (scheme_of set.shape) (committed front.now key.now inverse.now) i tape.now }
    ensures inputs_after { inputs.new
        ≡ input_shares (scheme_of set.shape) (committed front.now key.now inverse.now) i tape.now }
{
    let mut share = [0u8; 16];
    own(i, tapes::tape_part(set, 0, tape), key, &mut share);
    own(i, tapes::tape_part(set, 1, tape), inverse, inverses);
    shares::aes_circuit(one(i), &share, front, inverses, inputs)
}
