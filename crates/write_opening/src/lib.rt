// An opening written out, field by field: where a field begins follows from the sizes of a transcript's fields, where a share stands in a party's row
// from the sizes of that.
#![tactic(auto)]

ghost use Rattle.std.specs.Prelude.{◌≡◌, ◌+◌, ◌*◌, ◌^◌, ◌<◌, ◌≤◌, length, get_or, take};
ghost use Rattle.slices.specs.Lists.{put};
ghost use Rattle.slices.specs.Layout.{total};
ghost use Rattle.banquet.specs.Shape.{sboxes, first_challenge_length, product_points, transcript_sizes, opening_length};
ghost use Rattle.sets.specs.Bounds.{row_sizes};
ghost use Rattle.write_opening.specs.Written.{head, middle, field_column, written_transcript, written};

use sets::ParameterSet;

// "salt 32, e 1, commitments 512"
fn write_head(set: ParameterSet, salt: &[u8], e: u8, seeds: &[u8], out: &mut [u8])
    requires { (length salt.now ≡ 32) × (set.shape.parties * 16 ≤ length seeds.now)
        × (total (transcript_sizes set.shape) ≤ length out.old) }
    ensures { out.new ≡ put out.old 0 (head set.shape salt.now e seeds.now) }
{
    let sizes: &[usize] = &opening_sizes::transcript_sizes(set);
    let a = fields::offset(sizes, 2);
    let b = fields::offset(sizes, 3);
    slices::copy_at(out, 0, salt);
    out[salt.len()] = e;
    party::hash_rows(0, salt, e, set.shape.parties, 32, seeds, &mut out[a..b]);
}

// "key offset 16, inverse offsets 200, r 40, product offsets 84, R 4" from index at on; key, inverse and product are these offsets, and R has wide
// bytes.
fn write_middle(
    wide: usize,
    key: &[u8],
    inverse: &[u8],
    first: &[u8],
    product: &[u8],
    second: u64,
    at: usize,
    out: &mut [u8],
)
    requires { (wide ≤ 8) × (at + length (middle wide key.now inverse.now first.now product.now second) ≤ length out.old) }
    ensures { out.new ≡ put out.old at
        (middle wide key.now inverse.now first.now product.now second) }
{
    let i = at + key.len();
    let f = i + inverse.len();
    let p = f + first.len();
    let q = p + product.len();
    slices::copy_at(out, at, key);
    slices::copy_at(out, i, inverse);
    slices::copy_at(out, f, first);
    slices::copy_at(out, p, product);
    numbers::store(out, q, wide, second);
}

// Part k of each of n rows, as field f; parts are the sizes of a row's parts, sizes those of the fields.
fn write_column(
    sizes: &[usize],
    f: usize,
    parts: &[usize],
    k: usize,
    n: usize,
    rows: &[u8],
    out: &mut [u8],
)
    requires { (f < length sizes.now) × (total sizes.now ≤ length out.old) × (total sizes.now < 2 ^ 63) × (k < length parts.now)
        × (total parts.now < 2 ^ 63) × (length rows.now ≡ n * total parts.now)
        × (get_or sizes.now f 0 ≡ n * get_or parts.now k 0) }
    ensures { out.new
        ≡ put out.old (total (take f sizes.now)) (field_column parts.now k n rows.now) }
{
    let stride = fields::offset(parts, parts.len());
    let at = fields::offset(parts, k);
    let a = fields::offset(sizes, f);
    let b = fields::offset(sizes, f + 1);
    columns::column(n, stride, at, parts[k], rows, &mut out[a..b]);
}

// "salt 32, e 1, commitments 512, output shares 256, key offset 16, inverse offsets 200, r 40, product offsets 84, R 4, shares of c 64, of a 640, of
// b 640 (by party)", where rows has each party's shares of the output, of c, a and b; key, inverse and product are the offsets.
fn write_transcript(
    set: ParameterSet,
    salt: &[u8],
    e: u8,
    seeds: &[u8],
    key: &[u8],
    inverse: &[u8],
    first: &[u8],
    product: &[u8],
    second: u64,
    rows: &[u8],
    out: &mut [u8],
)
    requires { (length salt.now ≡ 32) × (set.shape.parties * 16 ≤ length seeds.now) × (length key.now ≡ 16)
        × (length inverse.now ≡ sboxes set.shape) × (length first.now ≡ first_challenge_length set.shape)
        × (length product.now ≡ product_points set.shape * set.shape.wide) × (length rows.now ≡ set.shape.parties * total (row_sizes set.shape))
        × (length out.old ≡ total (transcript_sizes set.shape)) }
    ensures { out.new
        ≡ written_transcript set.shape salt.now e seeds.now key.now inverse.now first.now
        product.now second rows.now }
{
    let n = set.shape.parties;
    let sizes: &[usize] = &opening_sizes::transcript_sizes(set);
    let parts: &[usize] = &sets::row_sizes(set);
    let at = fields::offset(sizes, 4);
    write_head(set, salt, e, seeds, out);
    write_column(sizes, 3, parts, 0, n, rows, out);
    write_middle(
        set.shape.wide,
        key,
        inverse,
        first,
        product,
        second,
        at,
        out,
    );
    write_column(sizes, 9, parts, 1, n, rows, out);
    write_column(sizes, 10, parts, 2, n, rows, out);
    write_column(sizes, 11, parts, 3, n, rows, out);
}

// The whole opening: the transcript, then "hidden party 1, sibling seeds 64".
pub fn write(
    set: ParameterSet,
    salt: &[u8],
    e: u8,
    root: &[u8],
    hidden: usize,
    seeds: &[u8],
    key: &[u8],
    inverse: &[u8],
    first: &[u8],
    product: &[u8],
    second: u64,
    rows: &[u8],
    out: &mut [u8],
)
    requires { (length salt.now ≡ 32) × (length root.now ≡ 16) × (hidden < 256)
        × (set.shape.parties * 16 ≤ length seeds.now) × (length key.now ≡ 16) × (length inverse.now ≡ sboxes set.shape)
        × (length first.now ≡ first_challenge_length set.shape) × (length product.now ≡ product_points set.shape * set.shape.wide)
        × (length rows.now ≡ set.shape.parties * total (row_sizes set.shape)) × (length out.old ≡ opening_length set.shape) }
    ensures { out.new
        ≡ written set.shape salt.now e root.now hidden seeds.now key.now
        inverse.now first.now product.now second rows.now }
{
    let d = opening_sizes::transcript_length(set);
    let s = d + 1;
    let end = out.len();
    write_transcript(
        set,
        salt,
        e,
        seeds,
        key,
        inverse,
        first,
        product,
        second,
        rows,
        &mut out[0..d],
    );
    out[d] = hidden as u8;
    siblings::sibling_seeds(set.shape.depth, salt, e, 0, root, hidden, &mut out[s..end]);
}
