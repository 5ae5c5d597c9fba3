// Signs: key, public key, message, salt and root seeds come from standard input, in hexadecimal, a line each; the card goes to standard output, or
// `refused` with number and place. Where a read fails nothing is printed.
#![tactic(auto)]

ghost use Rattle.std.specs.Prelude.{◌≡◌, length};
ghost use Rattle.banquet.specs.Shape.{message_limit};
ghost use Rattle.banquet.specs.Sets.{base};
ghost use Rattle.card_theorems.specs.Cards.{card_length};
ghost use Rattle.requests.specs.Accepted.{read_most};

// Room for the longest request, and one byte more: of a longer text no more need be read.
fn request_room() -> [u8; requests::TEXT + 1]
    ensures { read_most ≡ length result }
{
    [0; requests::TEXT + 1]
}

fn card_room() -> [u8; card_sizes::TEXT]
    ensures { card_length base message_limit ≡ length result }
{
    [0; card_sizes::TEXT]
}

fn main(rt: HostRuntime) {
    let mut text = request_room();
    let Ok(n) = stdio::read(rt, &mut text) else {
        return;
    };
    let mut card = card_room();
    let end = requests::print_request(&text[..n], &mut card);
    stdio::write(rt, &card[..end]);
}
