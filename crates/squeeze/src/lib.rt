// The output of SHAKE128 (FIPS 202, section 6.2) as a stream: squeeze in pieces.
#![tactic(auto)]

ghost use Rattle.std.specs.Prelude.{◌≡◌, ◌+◌, ◌*◌, ◌<◌, ◌≤◌, length};
ghost use Rattle.slices.specs.Lists.{put};
ghost use Rattle.shake.specs.Padding.{rate};
ghost use Rattle.stream.specs.Stream.{sponge, squeezed, rest};

use stream::Sponge;

// Writes n whole lanes, from number k on, to out[j].
fn write_lanes(lanes: &[u64; 25], k: usize, out: &mut [u8], j: usize, n: usize)
    requires { (k + n ≤ 21) × (j + 8 * n ≤ length out.old) }
    ensures { out.new ≡ put out.old j (squeezed (sponge lanes.now (8 * k)) (8 * n)) }
{
    for i in 0..n {
        numbers::store(out, j + 8 * i, 8, lanes[k + i]);
    }
}

// Writes some of the next bytes to out[j], of a sponge that is ready at byte `at`: whole lanes where `at` begins one and eight bytes are wanted, else a
// piece of a lane. Returns how many: all that is promised of it is what a loop of such steps needs. A whole block has a call of its own, which is unrolled.
fn squeeze_some(lanes: &[u64; 25], at: usize, out: &mut [u8], j: usize) -> usize
    requires { (at < rate) × (j < length out.old) }
    ensures { (0 < result) × (at + result ≤ rate) × (j + result ≤ length out.old)
        × (out.new ≡ put out.old j (squeezed (sponge lanes.now at) result)) }
{
    let left = out.len() - j;
    let w = stream::piece(at, left);
    if w == 8 {
        let n = stream::whole(at, left);
        if n == 21 {
            write_lanes(lanes, at / 8, out, j, 21);
        } else {
            write_lanes(lanes, at / 8, out, j, n);
        }
        8 * n
    } else {
        numbers::store(out, j, w, lanes[at / 8] >> (8 * (at % 8)));
        w
    }
}

// out filled with the next bytes of the output, in each turn whole lanes or a piece of one.
pub fn squeeze(s: Sponge, out: &mut [u8]) -> Sponge
    ensures fact_1 { out.new ≡ squeezed s (length out.old) }
    ensures fact_2 { result ≡ rest s (length out.old) }
{
    let mut lanes = s.lanes;
    let mut at = s.at;
    let mut j = 0;
    while j < out.len() {
        if 168 <= at {
            permutation::permute(&mut lanes);
            at = 0;
        }
        let w = squeeze_some(&lanes, at, out, j);
        at += w;
        j += w;
    }
    Sponge { lanes, at }
}
