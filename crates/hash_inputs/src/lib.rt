// What stands at the beginning of the hash inputs 1, 2, 3, 6, 7 and 8, as sponges that have absorbed it, and the end of a stream.
#![tactic(auto)]

ghost use Rattle.std.specs.Prelude.{◌≡◌, ◌∷◌, length};
ghost use Rattle.shake.specs.Shake128.{shake128};
ghost use Rattle.stream.specs.Stream.{empty, absorbed, finished, squeezed};
ghost use Rattle.banquet.specs.Hash.{first_input};

use stream::Sponge;

// "1: public key, message length, message, salt, .."
pub fn first_input(public: &[u8], message: &[u8], salt: &[u8]) -> Sponge
    ensures { result ≡ absorbed empty (first_input public.now message.now salt.now) }
{
    let a = tagged(1, public);
    let mut n = [0u8; 4];
    numbers::store(&mut n, 0, 4, message.len() as u64);
    let b = absorb::absorb(a, &n);
    let c = absorb::absorb(b, message);
    absorb::absorb(c, salt)
}

// A byte, and a public key or a hash: "1: public key, ..", "2: h1, ..", "3: h2, ..", "6: h1", "7: h2", "8: h3"
pub fn tagged(tag: u8, h: &[u8]) -> Sponge
    ensures { result ≡ absorbed empty (tag ∷ h.now) }
{
    let a = absorb::absorb(Sponge::new(), &[tag]);
    absorb::absorb(a, h)
}

// The output for what was absorbed.
pub fn output(s: Sponge, out: &mut [u8])
    ensures { out.new ≡ squeezed (finished s) (length out.old) }
{
    let f = absorb::finish(s);
    squeeze::squeeze(f, out);
}

// "6: h1; gives ..", "7: h2; ..", "8: h3; ..": out filled with the output for the byte and the hash.
pub fn draw(tag: u8, h: &[u8], out: &mut [u8])
    ensures { out.new ≡ shake128 (tag ∷ h.now) (length out.old) }
{
    let s = tagged(tag, h);
    output(s, out);
}
