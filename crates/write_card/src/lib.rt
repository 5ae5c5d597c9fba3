// A card is written as text.
#![tactic(auto)]

ghost use Rattle.std.specs.Prelude.{◌≡◌, ◌++◌, ◌+◌, ◌≤◌, length, take, drop};
ghost use Rattle.banquet.specs.Shape.{message_limit, public_key_length, signature_length};
ghost use Rattle.banquet.specs.Card.{card_text};
ghost use Rattle.banquet.specs.Sets.{base, scheme_of};
ghost use Rattle.card_theorems.specs.Cards.{card_length};
ghost use Rattle.card_sizes.specs.Lines.{card_bytes};

use sets::ParameterSet;

// The parts of a card one after the other, at the front of `bytes`; returns where they end.
fn join(public: &[u8], message: &[u8], signature: &[u8], bytes: &mut [u8]) -> usize
    requires { length public.now + length message.now + length signature.now ≤ length bytes.old }
    ensures value { result ≡ length public.now + length message.now + length signature.now }
    ensures bytes_after { take result bytes.new ≡ public.now ++ (message.now ++ signature.now) }
{
    let start = public.len() + message.len();
    slices::copy_at(bytes, 0, public);
    slices::copy_at(bytes, public.len(), message);
    slices::copy_at(bytes, start, signature);
    start + signature.len()
}

// The text of a card of any set, at the front of `out`; returns its length. It stands for no more bytes than the longest card of document 01's set.
pub fn write_card(
    set: ParameterSet,
    public: &[u8],
    message: &[u8],
    signature: &[u8],
    out: &mut [u8],
) -> usize
    requires { (length public.now ≡ public_key_length set.shape) × (length signature.now ≡ signature_length set.shape)
        × (card_bytes set.shape (length message.now) ≤ card_bytes base message_limit) × (card_length set.shape (length message.now) ≤ length out.old) }
    ensures value { result ≡ length (card_text (scheme_of set.shape) public.now message.now signature.now) }
    ensures out_after { out.new
        ≡ card_text (scheme_of set.shape) public.now message.now signature.now ++ drop result out.old }
{
    let mut bytes = [0u8; card_sizes::BYTES];
    let end = join(public, message, signature, &mut bytes);
    let lines = card_sizes::lines(set);
    let sizes = card_sizes::card_sizes(set, message.len());
    let n = 2 * end + lines;
    encode_lines::encode_lines(&bytes[0..end], &sizes[0..lines], &mut out[0..n]);
    n
}
