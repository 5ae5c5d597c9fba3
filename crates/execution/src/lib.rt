// One execution's parties: each draws its tape and works out its shares of the output and of c, a and b.
#![tactic(auto)]

ghost use Rattle.std.specs.Prelude.{◌≡◌, ◌*◌, ◌^◌, ◌<◌, ◌≤◌, length};
ghost use Rattle.slices.specs.Lists.{rows, row};
ghost use Rattle.slices.specs.Layout.{total};
ghost use Rattle.banquet.specs.Shape.{sboxes, product_points, first_challenge_length};
ghost use Rattle.banquet.specs.Sets.{scheme_of};
ghost use Rattle.banquet.specs.Hash.{tape as tape_of};
ghost use Rattle.banquet.specs.Execution.{challenge};
ghost use Rattle.sets.specs.Bounds.{row_sizes};
ghost use Rattle.forms.specs.Party.{committed, worked_row, share_row};
ghost use Rattle.party_shares.specs.Given.{Lengths};

use sets::ParameterSet;

// The rows of all parties: each draws its tape from its seed.
fn seed_rows(
    set: ParameterSet,
    salt: &[u8],
    e: u8,
    seeds: &[u8],
    front: &[u8],
    key: &[u8],
    inverse: &[u8],
    product: &[u8],
    first: &[u64],
    far: &[u64],
    given: u64,
    tables: &[u64],
    last: u64,
    out: &mut [u8],
)
    requires { Lengths set.shape front.now key.now inverse.now product.now first.now far.now tables.now
        × (length salt.now ≡ 32) × (set.shape.parties * 16 ≤ length seeds.now)
        × (length out.old ≡ set.shape.parties * total (row_sizes set.shape)) }
    ensures { out.new
        ≡ rows (λ i. worked_row set.shape (committed front.now key.now inverse.now)
        product.now first.now far.now given tables.now last i
        (tape_of (scheme_of set.shape) salt.now e i (row 16 i seeds.now))) set.shape.parties }
{
    let size = sets::tape_length(set);
    let len = sets::row_length(set);
    let mut room = [0u8; 462];
    let tape = &mut room[0..size];
    let n = set.shape.parties;
    for i in 0..n {
        let s = i * 16;
        let t = s + 16;
        party::hash(4, salt, e, i as u8, &seeds[s..t], tape);
        let a = i * len;
        let b = a + len;
        party_shares::party_row(
            set,
            i,
            front,
            key,
            inverse,
            product,
            first,
            far,
            given,
            tables,
            last,
            tape,
            &mut out[a..b],
        );
    }
}

// All parties' shares under the challenge, a row for each. `key`, `inverse` and `product` are the offsets.
pub fn share_rows(
    set: ParameterSet,
    salt: &[u8],
    e: u8,
    seeds: &[u8],
    front: &[u8],
    key: &[u8],
    inverse: &[u8],
    first: &[u8],
    product: &[u8],
    second: u64,
    out: &mut [u8],
)
    requires { (length salt.now ≡ 32) × (set.shape.parties * 16 ≤ length seeds.now) × (length front.now ≡ set.shape.front)
        × (length key.now ≡ 16) × (length inverse.now ≡ sboxes set.shape) × (length first.now ≡ first_challenge_length set.shape)
        × (length product.now ≡ product_points set.shape * set.shape.wide) × (second < 2 ^ (8 * set.shape.wide))
        × (length out.old ≡ set.shape.parties * total (row_sizes set.shape)) }
    ensures { out.new
        ≡ rows (λ i. share_row (scheme_of set.shape) (committed front.now key.now inverse.now)
        (challenge (scheme_of set.shape) first.now product.now second) i
        (tape_of (scheme_of set.shape) salt.now e i (row 16 i seeds.now))) set.shape.parties }
{
    let bits = (8 * set.shape.wide) as u32;
    let mut tables = [0u64; 640];
    let last = points::tables(set, second, &mut tables);
    let mut far = [0u64; 41];
    points::far_values(set, second, &mut far);
    let m = set.shape.m1;
    let mut drawn = [0u64; 10];
    let draws = &mut drawn[0..m];
    elements::load(set.shape.wide, first, draws);
    let given = gf::mul(
        bits,
        set.shape.low,
        opened::sum(&far[0..20]),
        opened::sum(draws),
    );
    seed_rows(
        set,
        salt,
        e,
        seeds,
        front,
        key,
        inverse,
        product,
        draws,
        &far[20..41],
        given,
        &tables,
        last,
        out,
    );
}
