// An opening made by the holder of the key, for any parameter set.
#![tactic(auto)]

ghost use Rattle.std.specs.Prelude.{◌≡◌, ◌*◌, ◌≤◌, length};
ghost use Rattle.slices.specs.Layout.{total};
ghost use Rattle.shake.specs.Shake128.{shake128};
ghost use Rattle.banquet.specs.Shape.{work_length, opening_length, product_points};
ghost use Rattle.banquet.specs.Sets.{scheme_of};
ghost use Rattle.banquet.specs.Answer.{accepted, output_after};
ghost use Rattle.banquet.specs.Tree.{node_seeds, leaves};
ghost use Rattle.banquet.specs.Opening.{opening};
ghost use Rattle.sets.specs.Bounds.{row_sizes};
ghost use Rattle.scratch.specs.Scratch.{Scratch};
ghost use Rattle.make_opening.specs.Steps.{Lengths, Ranges, Inverted, AtPoints};

use sets::ParameterSet;

// The opening into out, from the parties' seeds, the inverses and the rows at the points 20 to 40. The rows of shares are scratch.
fn make_shares(
    set: ParameterSet,
    key: &[u8],
    public: &[u8],
    salt: &[u8],
    root: &[u8],
    first: &[u8],
    e: u8,
    second: u64,
    hidden: usize,
    inverses: &[u8],
    seeds: &[u8],
    us: &[u64],
    vs: &[u64],
    lasts: &[u64],
    products: &mut [u8],
    rows: &mut [u8],
    out: &mut [u8],
)
    requires { Lengths set.shape key.now public.now salt.now root.now first.now
        × Ranges set.shape e second hidden × AtPoints set.shape key.now public.now inverses.now us.now vs.now lasts.now
        × (seeds.now ≡ node_seeds (leaves shake128 salt.now e set.shape.depth 0 root.now))
        × (length products.old ≡ product_points set.shape * set.shape.wide) × (length rows.old ≡ set.shape.parties * total (row_sizes set.shape))
        × (length out.old ≡ opening_length set.shape) }
    ensures { out.new
        ≡ opening (scheme_of set.shape) key.now public.now salt.now root.now first.now e second hidden }
{
    let n = inverses.len();
    let mut key_bytes = [0u8; 16];
    let mut inverse_room = [0u8; 200];
    let inverse_bytes = &mut inverse_room[0..n];
    signer::offsets(
        set,
        salt,
        e,
        seeds,
        key,
        inverses,
        us,
        vs,
        lasts,
        first,
        &mut key_bytes,
        inverse_bytes,
        products,
    );
    let key_offset: &[u8] = &key_bytes;
    let inverse_offsets: &[u8] = inverse_bytes;
    let product_offsets: &[u8] = products;
    execution::share_rows(
        set,
        salt,
        e,
        seeds,
        sets::front(set.shape, public),
        key_offset,
        inverse_offsets,
        first,
        product_offsets,
        second,
        rows,
    );
    write_opening::write(
        set,
        salt,
        e,
        root,
        hidden,
        seeds,
        key_offset,
        inverse_offsets,
        first,
        product_offsets,
        second,
        rows,
        out,
    );
}

// The opening into the front of out; the work slice's front is scratch.
pub fn make(
    set: ParameterSet,
    key: &[u8],
    public: &[u8],
    salt: &[u8],
    root: &[u8],
    first: &[u8],
    e: u8,
    second: u64,
    hidden: usize,
    inputs: &[u8],
    inverses: &[u8],
    out: &mut [u8],
    work: &mut [u8],
)
    requires { Lengths set.shape key.now public.now salt.now root.now first.now
        × Ranges set.shape e second hidden × Inverted set.shape key.now public.now inputs.now inverses.now
        × (opening_length set.shape ≤ length out.old) × (work_length ≤ length work.old) }
    ensures out_after { out.new
        ≡ output_after accepted (opening (scheme_of set.shape) key.now public.now salt.now root.now
        first.now e second hidden) out.old }
    ensures scratch { Scratch work.old work.new }
{
    let mut room = [0u8; 2048];
    let leaves = sets::leaf_bytes(set);
    let seeds = &mut room[0..leaves];
    tree::expand(set.shape.depth, salt, e, 0, root, seeds);
    let n = 21 * set.shape.m1;
    let mut input_rows = [0u64; 210];
    let mut inverse_rows = [0u64; 210];
    let mut lasts = [0u64; 21];
    let us = &mut input_rows[0..n];
    let vs = &mut inverse_rows[0..n];
    true_rows::true_rows(set, inputs, inverses, us, vs, &mut lasts);
    let mut products = [0u8; 126];
    let end = 21 * set.shape.wide;
    let rows = set.shape.parties * sets::row_length(set);
    let size = opening_sizes::opening_length(set);
    make_shares(
        set,
        key,
        public,
        salt,
        root,
        first,
        e,
        second,
        hidden,
        inverses,
        seeds,
        us,
        vs,
        &lasts,
        &mut products[0..end],
        &mut work[0..rows],
        &mut out[0..size],
    );
}
