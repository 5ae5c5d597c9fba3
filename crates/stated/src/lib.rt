// What an opening states: each party's shares in a row.
#![tactic(auto)]

ghost use Rattle.std.specs.Prelude.{◌≡◌, ◌+◌, ◌*◌, ◌^◌, ◌<◌, ◌≤◌, length, get_or, take};
ghost use Rattle.slices.specs.Lists.{rows as rows_of, row, put};
ghost use Rattle.slices.specs.Layout.{total, field};
ghost use Rattle.banquet.specs.Shape.{transcript_sizes};
ghost use Rattle.sets.specs.Bounds.{row_sizes};
ghost use Rattle.forms.specs.Stated.{stated_row};

use sets::ParameterSet;

// Row i of field k, as part p of a row of shares; sizes are those of the fields, parts those of the row's parts.
fn copy_share(
    sizes: &[usize],
    k: usize,
    parts: &[usize],
    p: usize,
    i: usize,
    s: &[u8],
    out: &mut [u8],
)
    requires { (k < length sizes.now) × (total sizes.now ≤ length s.now) × (total sizes.now < 2 ^ 63) × (p < length parts.now)
        × (total parts.now ≤ length out.old) × (total parts.now < 2 ^ 63)
        × (i * get_or parts.now p 0 + get_or parts.now p 0 ≤ get_or sizes.now k 0) }
    ensures { out.new ≡ put out.old (total (take p parts.now))
        (row (get_or parts.now p 0) i (field sizes.now k s.now)) }
{
    let len = parts[p];
    let at = fields::offset(parts, p);
    let rows = fields::field(sizes, k, s);
    let a = i * len;
    let b = a + len;
    slices::copy_at(out, at, &rows[a..b]);
}

// The stated shares of party i: output, c, a, b.
fn stated_row(set: ParameterSet, transcript: &[u8], i: usize, out: &mut [u8])
    requires { (length transcript.now ≡ total (transcript_sizes set.shape)) × (i < set.shape.parties)
        × (length out.old ≡ total (row_sizes set.shape)) }
    ensures { out.new ≡ stated_row set.shape transcript.now i }
{
    let sizes: &[usize] = &opening_sizes::transcript_sizes(set);
    let parts: &[usize] = &sets::row_sizes(set);
    copy_share(sizes, 3, parts, 0, i, transcript, out);
    copy_share(sizes, 9, parts, 1, i, transcript, out);
    copy_share(sizes, 10, parts, 2, i, transcript, out);
    copy_share(sizes, 11, parts, 3, i, transcript, out);
}

// The stated shares of all parties.
pub fn rows(set: ParameterSet, transcript: &[u8], out: &mut [u8])
    requires { (length transcript.now ≡ total (transcript_sizes set.shape))
        × (length out.old ≡ set.shape.parties * total (row_sizes set.shape)) }
    ensures { out.new ≡ rows_of (stated_row set.shape transcript.now) set.shape.parties }
{
    let len = sets::row_length(set);
    let n = set.shape.parties;
    for i in 0..n {
        let a = i * len;
        let b = a + len;
        stated_row(set, transcript, i, &mut out[a..b]);
    }
}
