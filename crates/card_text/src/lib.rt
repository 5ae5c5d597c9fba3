// The card: its text is read and checked.
#![tactic(auto)]

ghost use Rattle.std.specs.Prelude.{◌≡◌, ◌≤◌};
ghost use Rattle.banquet.specs.Shape.{message_limit};
ghost use Rattle.banquet.specs.Calls.{checked};
ghost use Rattle.banquet.specs.Card.{verify_card};
ghost use Rattle.banquet.specs.Sets.{base, scheme_of, base_scheme};
ghost use Rattle.card_sizes.specs.Lines.{card_bytes};

use banquet::Answer;
use sets::{ParameterSet, Parties16};

// The text of a card of any set is checked: 18 where it breaks its form, "before all others", else what `verify` answers. The set's cards stand for
// no more bytes than the longest of document 01's set.
fn check_text(set: ParameterSet, text: &[u8], work: &mut [u8]) -> Answer
    requires { card_bytes set.shape message_limit ≤ card_bytes base message_limit }
    ensures { checked result work.new ≡ verify_card (scheme_of set.shape) text.now work.old }
{
    let lines = card_sizes::lines(set);
    let sizes = card_sizes::card_sizes(set, banquet::MESSAGE_LIMIT);
    let mut bytes = [0u8; card_sizes::BYTES];
    text_lines::read_lines(text, &sizes[0..lines], 2, &mut bytes)?;
    let message = sets::public_key_length(set);
    let end = (text.len() - lines) / 2;
    let signature = end - frames::signature_length(set);
    check_signature::check(
        set,
        &bytes[0..message],
        &bytes[message..signature],
        &bytes[signature..end],
        work,
    )
}

// The text of a card of document 01's set is checked.
pub fn verify_card(text: &[u8], work: &mut [u8]) -> Answer
    ensures { checked result work.new ≡ verify_card base_scheme text.now work.old }
{
    check_text(Parties16::SET, text, work)
}
