// What the card program prints of a text, for document 01's set.
#![tactic(auto)]

ghost use Rattle.std.specs.Prelude.{◌≡◌};
ghost use Rattle.banquet.specs.Card.{card_output};
ghost use Rattle.banquet.specs.Sets.{base_scheme};
ghost use Rattle.print_card.specs.Line.{as_line};

// A line with its end, and zeros behind it; `length` is its own.
#[derive(Clone, Copy)]
pub struct Line {
    pub bytes: [u8; 30],
    pub length: usize,
}

// "It prints `accepted`, or `refused`, number, place, with single spaces and a line end."
pub fn print_card(text: &[u8]) -> Line
    ensures { result ≡ as_line (card_output base_scheme text.now) }
{
    let mut work = [0u8; banquet::WORK_LENGTH];
    let answer = card_text::verify_card(text, &mut work);
    let mut bytes = [0u8; 30];
    let length = print_verdict::print_verdict(verdict::verdict(answer), &mut bytes);
    Line { bytes, length }
}
