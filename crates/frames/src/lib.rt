// A signature's frames: the sizes of their parts, the length of one and of the whole, where its parts lie, and frame e as a part of the signature itself.
#![tactic(auto)]

ghost use Rattle.std.specs.Prelude.{◌≡◌, ◌<◌, ◌≤◌, length, take};
ghost use Rattle.slices.specs.Layout.{total};
ghost use Rattle.banquet.specs.Shape.{frame_sizes, signature_length};
ghost use Rattle.banquet.specs.Sets.{scheme_of};
ghost use Rattle.banquet.specs.Signature.{frame_of, frame_part};

use sets::ParameterSet;

// "four sibling seeds from the top down (64), hidden commitment (32), key offset (16), inverse offsets (200), product offsets (84), c (4), a (40),
// b (40)"
pub fn frame_sizes(set: ParameterSet) -> [usize; 8]
    ensures { result ≡ frame_sizes set.shape }
{
    let row = set.shape.m1 * set.shape.wide;
    [
        set.shape.depth * 16,
        32,
        16,
        set.shape.m1 * set.shape.m2,
        (set.shape.m2 + 1) * set.shape.wide,
        set.shape.wide,
        row,
        row,
    ]
}

// The bytes of a frame.
pub fn frame_length(set: ParameterSet) -> usize
    ensures { (result ≡ total (frame_sizes set.shape)) × (result ≤ 612) }
{
    fields::offset(&frame_sizes(set), 8)
}

// Where part k of a frame begins.
pub fn offset(set: ParameterSet, k: usize) -> usize
    requires { k < 8 }
    ensures { (result ≡ total (take k (frame_sizes set.shape))) × (result ≤ 612) }
{
    fields::offset(&frame_sizes(set), k)
}

// Part k of a frame.
pub fn part<'a>(set: ParameterSet, k: usize, frame: &'a [u8]) -> &'a [u8]
    requires { (k < 8) × (length frame.now ≡ total (frame_sizes set.shape)) }
    ensures { result.now ≡ frame_part (scheme_of set.shape) frame.now k }
{
    let sizes = frame_sizes(set);
    fields::field(&sizes, k, frame)
}

// "A seal is 19,776 bytes: salt, h1, h3 (32 each), then 41 frames of 480"
pub fn signature_length(set: ParameterSet) -> usize
    ensures { (result ≡ signature_length set.shape) × (result ≤ 25188) }
{
    heads::LENGTH + set.shape.executions * frame_length(set)
}

// "A reader that wants frame e is handed that part of the caller's own file, or an empty part if e is over 40 or the file hasn't exactly a seal's
// length."
pub fn frame<'a>(set: ParameterSet, s: &'a [u8], e: usize) -> &'a [u8]
    ensures { result.now ≡ frame_of (scheme_of set.shape) s.now e }
{
    let size = frame_length(set);
    if s.len() != signature_length(set) {
        return &s[0..0];
    }
    if e >= set.shape.executions {
        return &s[0..0];
    }
    let a = heads::LENGTH + e * size;
    let b = a + size;
    &s[a..b]
}
