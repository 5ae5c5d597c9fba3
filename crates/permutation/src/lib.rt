// Keccak-f[1600] of FIPS 202, section 3.
#![tactic(auto)]

mod round;

ghost use Rattle.std.specs.Prelude.{◌≡◌, ◌+◌, ◌≤◌, get_or};
ghost use Rattle.slices.specs.Lists.{tab};
ghost use Rattle.keccak.specs.Keccak.{round, keccak_f};
ghost use Rattle.permutation.specs.State.{plane, state, masked};

use round::{Plane, State};

// The round constants.
const RC: [u64; 24] = [
    0x0000000000000001,
    0x0000000000008082,
    0x800000000000808a,
    0x8000000080008000,
    0x000000000000808b,
    0x0000000080000001,
    0x8000000080008081,
    0x8000000000008009,
    0x000000000000008a,
    0x0000000000000088,
    0x0000000080008009,
    0x000000008000000a,
    0x000000008000808b,
    0x800000000000008b,
    0x8000000000008089,
    0x8000000000008003,
    0x8000000000008002,
    0x8000000000000080,
    0x000000000000800a,
    0x800000008000000a,
    0x8000000080008081,
    0x8000000000008080,
    0x0000000080000001,
    0x8000000080008008,
];

// Five lanes of an array, from index i on.
fn cut(a: [u64; 25], i: usize) -> Plane
    requires { i + 5 ≤ 25 }
    ensures { plane result ≡ tab (λ x. get_or a (i + x) 0) 5 }
{
    Plane(a[i], a[i + 1], a[i + 2], a[i + 3], a[i + 4])
}

// Two rounds. As a loop of two turns they are unrolled when they are compiled, and the state between them is not copied; as two calls they stay calls.
fn two_rounds(a: State, rc0: u64, rc1: u64) -> State
    ensures { masked (state result) ≡ round rc1 (round rc0 (masked (state a))) }
{
    let mut s = a;
    for k in 0usize..2 {
        let rc = if k == 0 { rc0 } else { rc1 };
        let t = round::step_round(s, rc);
        s = t;
    }
    s
}

// Algorithm 7, Keccak-p[1600, 24]. The mask is put on before the rounds and taken off after them. A constant is written out wherever it is named, so the
// table is named before the loop; of the copy b nothing is left when this is compiled.
pub fn permute(a: &mut [u64; 25])
    ensures { a.new ≡ keccak_f a.old }
{
    let table = RC;
    let b = *a;
    let mut s = round::with_mask(State(cut(b, 0), cut(b, 5), cut(b, 10), cut(b, 15), cut(b, 20)));
    for i in 0..12 {
        let t = two_rounds(s, table[2 * i], table[2 * i + 1]);
        s = t;
    }
    let t = round::with_mask(s);
    *a = [
        t.0.0, t.0.1, t.0.2, t.0.3, t.0.4, t.1.0, t.1.1, t.1.2, t.1.3, t.1.4, t.2.0, t.2.1, t.2.2, t
            .2
            .3, t.2.4, t.3.0, t.3.1, t.3.2, t.3.3, t.3.4, t.4.0, t.4.1, t.4.2, t.4.3, t.4.4,
    ];
}
