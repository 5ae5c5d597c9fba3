// The card program: a card's text comes from standard input, and `accepted`, or `refused` with number and place, goes to standard output. The gate
// runs it on three texts, as `card`, `card_empty` and `card_line_45`.
#![tactic(auto)]

ghost use Rattle.std.specs.Prelude.{◌≡◌, suc, length};
ghost use Rattle.banquet.specs.Shape.{message_limit};
ghost use Rattle.banquet.specs.Sets.{base};
ghost use Rattle.card_theorems.specs.Cards.{card_length};

// Room for the longest card, and one byte more: of a longer text no more need be read.
fn room() -> [u8; card_sizes::TEXT + 1]
    ensures { suc (card_length base message_limit) ≡ length result }
{
    [0; card_sizes::TEXT + 1]
}

// Where a read fails nothing is printed, since the text may go on.
pub fn run(rt: HostRuntime) {
    let mut text = room();
    let Ok(n) = stdio::read(rt, &mut text) else {
        return;
    };
    let line = print_card::print_card(&text[..n]);
    let bytes = line.bytes;
    let end = line.length;
    stdio::write(rt, &bytes[..end]);
}
