// The input of SHAKE128 (FIPS 202, section 6.2) as a stream: absorb in pieces, finish.
#![tactic(auto)]

ghost use Rattle.std.specs.Prelude.{◌≡◌, ◌+◌, ◌*◌, ◌<◌, ◌≤◌, length, take};
ghost use Rattle.shake.specs.Padding.{rate};
ghost use Rattle.stream.specs.Stream.{sponge, absorbed, finished};

use stream::Sponge;

// Absorbs the first n whole lanes of src, in the lanes from number k on.
fn add_lanes(lanes: &mut [u64; 25], k: usize, src: &[u8], n: usize)
    requires { (k + n ≤ 21) × (8 * n ≤ length src.now) }
    ensures { sponge lanes.new (8 * (k + n)) ≡ absorbed (sponge lanes.old (8 * k)) (take (8 * n) src.now) }
{
    for i in 0..n {
        lanes[k + i] ^= numbers::load8(src, 8 * i);
    }
}

// Absorbs some of the first bytes of src, in a sponge that is ready at byte `at`: whole lanes where `at` begins one and eight bytes are left, else a piece of
// a lane. Returns how many: all that is promised of it is what a loop of such steps needs. A whole block has a call of its own, which is unrolled.
fn absorb_some(lanes: &mut [u64; 25], at: usize, src: &[u8]) -> usize
    requires { (at < rate) × (0 < length src.now) }
    ensures { (0 < result) × (at + result ≤ rate) × (result ≤ length src.now)
        × (sponge lanes.new (at + result) ≡ absorbed (sponge lanes.old at) (take result src.now)) }
{
    let left = src.len();
    let w = stream::piece(at, left);
    if w == 8 {
        let n = stream::whole(at, left);
        if n == 21 {
            add_lanes(lanes, at / 8, src, 21);
        } else {
            add_lanes(lanes, at / 8, src, n);
        }
        8 * n
    } else {
        let x = numbers::load(src, 0, w);
        lanes[at / 8] ^= x << (8 * (at % 8));
        w
    }
}

// The bytes of src absorbed, in each turn whole lanes or a piece of one.
pub fn absorb(s: Sponge, src: &[u8]) -> Sponge
    ensures { result ≡ absorbed s src.now }
{
    let mut lanes = s.lanes;
    let mut at = s.at;
    let mut rest = src;
    while !rest.is_empty() {
        if 168 <= at {
            permutation::permute(&mut lanes);
            at = 0;
        }
        let w = absorb_some(&mut lanes, at, rest);
        at += w;
        rest = &rest[w..];
    }
    Sponge { lanes, at }
}

// The end of the input: from here on the sponge is squeezed.
pub fn finish(s: Sponge) -> Sponge
    ensures { result ≡ finished s }
{
    let mut lanes = s.lanes;
    let mut at = s.at;
    if 168 <= at {
        permutation::permute(&mut lanes);
        at = 0;
    }
    let k = at / 8;
    lanes[k] ^= 0x1f << (8 * (at % 8));
    lanes[20] ^= 0x8000_0000_0000_0000;
    permutation::permute(&mut lanes);
    Sponge { lanes, at: 0 }
}
