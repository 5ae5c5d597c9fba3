// h2 of a signature, which doesn't carry it, from its own h1 and product offsets.
#![tactic(auto)]

ghost use Rattle.std.specs.Prelude.{◌≡◌, length};
ghost use Rattle.slices.specs.Lists.{rows};
ghost use Rattle.stream.specs.Stream.{absorbed};
ghost use Rattle.banquet.specs.Shape.{signature_length};
ghost use Rattle.banquet.specs.Sets.{scheme_of};
ghost use Rattle.banquet.specs.Hash.{second_hash};
ghost use Rattle.banquet.specs.Signature.{signature_h1, frame_of, frame_part};

use sets::ParameterSet;
use stream::Sponge;

// The product offsets of all executions.
fn absorb_products(set: ParameterSet, s: &[u8], start: Sponge) -> Sponge
    requires { length s.now ≡ signature_length set.shape }
    ensures { result
        ≡ absorbed start (rows (λ e. frame_part (scheme_of set.shape) (frame_of (scheme_of set.shape) s.now e) 4) set.shape.executions) }
{
    let n = set.shape.executions;
    let mut t = start;
    for e in 0..n {
        let frame = frames::frame(set, s, e);
        let u = absorb::absorb(t, frames::part(set, 4, frame));
        t = u;
    }
    t
}

// "2: h1, all product offsets; gives h2, 32 bytes."
pub fn second_hash(set: ParameterSet, s: &[u8]) -> [u8; 32]
    requires { length s.now ≡ signature_length set.shape }
    ensures { result
        ≡ second_hash (scheme_of set.shape) (signature_h1 s.now)
        (λ e. frame_part (scheme_of set.shape) (frame_of (scheme_of set.shape) s.now e) 4) }
{
    let start = hash_inputs::tagged(2, heads::h1(s));
    let t = absorb_products(set, s, start);
    let mut h = [0u8; 32];
    hash_inputs::output(t, &mut h);
    h
}
