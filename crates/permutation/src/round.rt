// A round of Keccak-f[1600] (FIPS 202, section 3), on a state some of whose lanes are held complemented. The steps work on structs of lanes, so
// that the compiler holds each in a register or on the stack.
ghost use Rattle.std.specs.Prelude.{◌≡◌, [], ◌∷◌, ◌%◌};
ghost use Rattle.slices.specs.Lists.{tab, row, zip_xor};
ghost use Rattle.keccak.specs.Keccak.{rotl, effect, round};
ghost use Rattle.permutation.specs.State.{plane, state, rho_plane, chi_plane, mask, chi_mask, masked};

// Five lanes with one y: lane A[x, y] of FIPS 202 is the field of number x.
#[derive(Clone, Copy)]
pub struct Plane(pub u64, pub u64, pub u64, pub u64, pub u64);

// The state: its five planes, by y.
#[derive(Clone, Copy)]
pub struct State(pub Plane, pub Plane, pub Plane, pub Plane, pub Plane);

// All bits of a lane: to add them is to complement it.
const ONES: u64 = 0xffff_ffff_ffff_ffff;

// The sum of two planes.
fn add(a: Plane, b: Plane) -> Plane
    ensures { plane result ≡ zip_xor (plane a) (plane b) }
{
    Plane(a.0 ^ b.0, a.1 ^ b.1, a.2 ^ b.2, a.3 ^ b.3, a.4 ^ b.4)
}

// The mask put on a state, or taken off: both add it.
pub fn with_mask(s: State) -> State
    ensures { state result ≡ masked (state s) }
{
    State(
        add(s.0, Plane(0, ONES, ONES, 0, 0)),
        add(s.1, Plane(0, 0, 0, ONES, 0)),
        add(s.2, Plane(0, 0, ONES, 0, 0)),
        add(s.3, Plane(0, 0, ONES, 0, 0)),
        add(s.4, Plane(ONES, 0, 0, 0, 0)),
    )
}

// A lane rotated by n modulo 64.
fn rotated(a: u64, n: u32) -> u64
    ensures { result ≡ rotl a (n % 64) }
{
    a.rotate_left(n)
}

// A plane, the lane of number x rotated by nx.
fn rotate(a: Plane, n0: u32, n1: u32, n2: u32, n3: u32, n4: u32) -> Plane
    ensures { plane result ≡ rho_plane (n0 ∷ n1 ∷ n2 ∷ n3 ∷ n4 ∷ []) (plane a) }
{
    Plane(
        rotated(a.0, n0),
        rotated(a.1, n1),
        rotated(a.2, n2),
        rotated(a.3, n3),
        rotated(a.4, n4),
    )
}

// Algorithm 1, theta, steps 1 and 2: what step 3 adds to each plane.
fn effects(s: State) -> Plane
    ensures { plane result ≡ tab (effect (state s)) 5 }
{
    let c = add(add(add(add(s.0, s.1), s.2), s.3), s.4);
    let before = Plane(c.4, c.0, c.1, c.2, c.3);
    let after = Plane(c.1, c.2, c.3, c.4, c.0);
    add(before, rotate(after, 1, 1, 1, 1, 1))
}

// Theta, step 3, and algorithm 2, rho, on a plane.
fn theta_rho(a: Plane, d: Plane, n0: u32, n1: u32, n2: u32, n3: u32, n4: u32) -> Plane
    ensures { plane result ≡ rho_plane (n0 ∷ n1 ∷ n2 ∷ n3 ∷ n4 ∷ []) (zip_xor (plane a) (plane d)) }
{
    rotate(add(a, d), n0, n1, n2, n3, n4)
}

// Algorithm 4, chi, on each plane by itself: its lanes come with the mask that theta, rho and pi make of the one between rounds, and go with that one, so
// that of five complements one is left.

// Chi on plane 0, masked.
fn chi0(a: u64, e: u64, i: u64, o: u64, u: u64) -> Plane
    ensures { zip_xor (plane result) (row 5 0 mask) ≡ chi_plane (zip_xor (a ∷ e ∷ i ∷ o ∷ u ∷ []) (row 5 0 chi_mask)) }
{
    Plane(
        a ^ (e | i),
        e ^ (!i | o),
        i ^ (o & u),
        o ^ (u | a),
        u ^ (a & e),
    )
}

// Chi on plane 1, masked.
fn chi1(a: u64, e: u64, i: u64, o: u64, u: u64) -> Plane
    ensures { zip_xor (plane result) (row 5 1 mask) ≡ chi_plane (zip_xor (a ∷ e ∷ i ∷ o ∷ u ∷ []) (row 5 1 chi_mask)) }
{
    Plane(
        a ^ (e | i),
        e ^ (i & o),
        i ^ (o | !u),
        o ^ (u | a),
        u ^ (a & e),
    )
}

// Chi on plane 2, masked.
fn chi2(a: u64, e: u64, i: u64, o: u64, u: u64) -> Plane
    ensures { zip_xor (plane result) (row 5 2 mask) ≡ chi_plane (zip_xor (a ∷ e ∷ i ∷ o ∷ u ∷ []) (row 5 2 chi_mask)) }
{
    let q = !o;
    Plane(
        a ^ (e | i),
        e ^ (i & o),
        i ^ (q & u),
        q ^ (u | a),
        u ^ (a & e),
    )
}

// Chi on plane 3, masked.
fn chi3(a: u64, e: u64, i: u64, o: u64, u: u64) -> Plane
    ensures { zip_xor (plane result) (row 5 3 mask) ≡ chi_plane (zip_xor (a ∷ e ∷ i ∷ o ∷ u ∷ []) (row 5 3 chi_mask)) }
{
    let q = !o;
    Plane(
        a ^ (e & i),
        e ^ (i | o),
        i ^ (q | u),
        q ^ (u & a),
        u ^ (a | e),
    )
}

// Chi on plane 4, masked.
fn chi4(a: u64, e: u64, i: u64, o: u64, u: u64) -> Plane
    ensures { zip_xor (plane result) (row 5 4 mask) ≡ chi_plane (zip_xor (a ∷ e ∷ i ∷ o ∷ u ∷ []) (row 5 4 chi_mask)) }
{
    let q = !e;
    Plane(
        a ^ (q & i),
        q ^ (i | o),
        i ^ (o & u),
        o ^ (u | a),
        u ^ (a & e),
    )
}

// Rnd, one round. Theta and rho give b0, .. b4; algorithm 3, pi, takes a lane of each for a plane of chi; algorithm 6, iota. Of the orders in which the
// planes can be worked out this one compiles to few moves.
pub fn step_round(s: State, rc: u64) -> State
    ensures { masked (state result) ≡ round rc (masked (state s)) }
{
    let d = effects(s);
    let b0 = theta_rho(s.0, d, 0, 1, 190, 28, 91);
    let b1 = theta_rho(s.1, d, 36, 300, 6, 55, 276);
    let b3 = theta_rho(s.3, d, 105, 45, 15, 21, 136);
    let b4 = theta_rho(s.4, d, 210, 66, 253, 120, 78);
    let b2 = theta_rho(s.2, d, 3, 10, 171, 153, 231);
    let c2 = chi2(b0.1, b1.2, b2.3, b3.4, b4.0);
    let c1 = chi1(b0.3, b1.4, b2.0, b3.1, b4.2);
    let c3 = chi3(b0.4, b1.0, b2.1, b3.2, b4.3);
    let c4 = chi4(b0.2, b1.3, b2.4, b3.0, b4.1);
    let c0 = chi0(b0.0, b1.1, b2.2, b3.3, b4.4);
    let e = Plane(c0.0 ^ rc, c0.1, c0.2, c0.3, c0.4);
    State(e, c1, c2, c3, c4)
}
