// A party's shares: from its tape those of the output, of c, a and b.
#![tactic(auto)]

ghost use Rattle.std.specs.Prelude.{◌≡◌, ◌*◌, ◌++◌, length};
ghost use Rattle.slices.specs.Layout.{total};
ghost use Rattle.slices.specs.Numbers.{numbers};
ghost use Rattle.banquet.specs.Shape.{sboxes, tape_sizes, product_points};
ghost use Rattle.sets.specs.Bounds.{row_sizes};
ghost use Rattle.forms.specs.Party.{committed, worked_c, worked_a, worked_b, worked_row};
ghost use Rattle.party_shares.specs.Given.{Lengths};

use sets::ParameterSet;

// The share of c, from P's shares at the points 20 to 40. `given` is what the public points 0 to 19 add to party 0's.
fn opened_c(
    set: ParameterSet,
    i: usize,
    product: &[u8],
    tape: &[u8],
    far: &[u64],
    given: u64,
) -> u64
    requires { (length product.now ≡ product_points set.shape * set.shape.wide) × (length tape.now ≡ total (tape_sizes set.shape))
        × (length far.now ≡ 21) }
    ensures { result ≡ worked_c set.shape product.now far.now given i tape.now }
{
    let bits = (8 * set.shape.wide) as u32;
    let mut bytes = [0u8; 126];
    let mut values = [0u64; 21];
    let end = product.len();
    let own = &mut bytes[0..end];
    circuit_shares::own(i, tapes::tape_part(set, 3, tape), product, own);
    elements::load(set.shape.wide, own, &mut values);
    let c = dots::dot(bits, set.shape.low, far, &values);
    if i == 0 {
        return c ^ given;
    }
    c
}

// The shares of a and then those of b: for each j from the bytes of j and the extra point, those of a times r_j.
fn opened_row(
    set: ParameterSet,
    first: &[u64],
    tables: &[u64],
    last: u64,
    inputs: &[u8],
    inverses: &[u8],
    tape: &[u8],
    out: &mut [u8],
)
    requires { (length first.now ≡ set.shape.m1) × (length tables.now ≡ 640) × (length inputs.now ≡ sboxes set.shape)
        × (length inverses.now ≡ sboxes set.shape) × (length tape.now ≡ total (tape_sizes set.shape))
        × (length out.old ≡ 2 * (set.shape.m1 * set.shape.wide)) }
    ensures { out.new
        ≡ numbers set.shape.wide set.shape.m1 (worked_a set.shape first.now tables.now last tape.now inputs.now)
        ++ numbers set.shape.wide set.shape.m1 (worked_b set.shape first.now tables.now last tape.now
        inverses.now) }
{
    let m = set.shape.m1;
    let n = 2 * m;
    let mut points = [0u64; 20];
    let mut tabled = [0u64; 10];
    let mut valued = [0u64; 10];
    let extra = &mut points[0..n];
    let rows = &mut tabled[0..m];
    let values = &mut valued[0..m];
    elements::load(set.shape.wide, tapes::tape_part(set, 2, tape), extra);
    let half = m * set.shape.wide;
    let whole = out.len();
    opened::rows(set, inputs, tables, rows);
    st_values::values_s(set, first, rows, extra, last, values);
    elements::store(set.shape.wide, values, &mut out[0..half]);
    opened::rows(set, inverses, tables, rows);
    st_values::values_t(set, rows, extra, last, values);
    elements::store(set.shape.wide, values, &mut out[half..whole]);
}

// All of a party's shares: output, c, a, b. `key`, `inverse` and `product` are the offsets.
pub fn party_row(
    set: ParameterSet,
    i: usize,
    front: &[u8],
    key: &[u8],
    inverse: &[u8],
    product: &[u8],
    first: &[u64],
    far: &[u64],
    given: u64,
    tables: &[u64],
    last: u64,
    tape: &[u8],
    out: &mut [u8],
)
    requires { Lengths set.shape front.now key.now inverse.now product.now first.now far.now tables.now
        × (length tape.now ≡ total (tape_sizes set.shape)) × (length out.old ≡ total (row_sizes set.shape)) }
    ensures { out.new
        ≡ worked_row set.shape (committed front.now key.now inverse.now)
        product.now first.now far.now given tables.now last i tape.now }
{
    let sboxes = set.shape.m1 * set.shape.m2;
    let mut inverted = [0u8; 200];
    let mut given_bytes = [0u8; 200];
    let inverses = &mut inverted[0..sboxes];
    let inputs = &mut given_bytes[0..sboxes];
    let output = circuit_shares::walk(set, i, front, key, inverse, tape, inverses, inputs);
    slices::copy(&mut out[0..16], &output);
    let c = opened_c(set, i, product, tape, far, given);
    numbers::store(out, 16, set.shape.wide, c);
    let at = fields::offset(&sets::row_sizes(set), 2);
    let end = out.len();
    opened_row(
        set,
        first,
        tables,
        last,
        inputs,
        inverses,
        tape,
        &mut out[at..end],
    );
}
