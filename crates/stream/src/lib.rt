// The state of a sponge that is taken a byte at a time, for SHAKE128 of FIPS 202, section 6.2, as a stream.
#![tactic(auto)]

ghost use Rattle.std.specs.Prelude.{◌≡◌, ◌-◌, ◌/◌, ◌%◌, ◌≤◌, min};
ghost use Rattle.shake.specs.Padding.{rate};
ghost use Rattle.stream.specs.Stream.{empty};

// The 25 lanes, and the byte at which the next one goes in or comes out.
#[derive(Clone, Copy)]
pub struct Sponge {
    pub lanes: [u64; 25],
    pub at: usize,
}

impl Sponge {
    pub fn new() -> Self
        ensures { result ≡ empty }
    {
        Sponge {
            lanes: [0u64; 25],
            at: 0,
        }
    }
}

// How many of the bytes that are left go into, or come out of, the lane of byte `at` in one turn.
pub fn piece(at: usize, left: usize) -> usize
    ensures { result ≡ min (8 - at % 8) left }
{
    left.min(8 - at % 8)
}

// How many lanes the bytes that are left fill, up to the end of the block, where byte `at` begins a lane.
pub fn whole(at: usize, left: usize) -> usize
    requires { at ≤ rate }
    ensures { result ≡ min (rate - at) left / 8 }
{
    left.min(168 - at) / 8
}
