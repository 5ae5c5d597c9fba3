// How many lines a card has and how many bytes each stands for, for any parameter set; and the room that the longest card takes.
#![tactic(auto)]

ghost use Rattle.std.specs.Prelude.{◌≡◌, ◌≤◌, take};
ghost use Rattle.banquet.specs.Card.{card_sizes};
ghost use Rattle.card_sizes.specs.Lines.{lines_of};

use sets::{ParameterSet, Parties16};

// The longest card is one of document 01's set. Its lines: public key, message, head, and 41 frames.
pub const LINES: usize = 3 + Parties16::SHAPE.executions;

// Its signature: the head, "then 41 frames of 480".
pub const SIGNATURE: usize = heads::LENGTH + Parties16::SHAPE.executions * 480;

// The bytes that it stands for: public key, message and signature.
pub const BYTES: usize = Parties16::SHAPE.front + 16 + banquet::MESSAGE_LIMIT + SIGNATURE;

// Its text: two digits a byte, and an end for each line.
pub const TEXT: usize = 2 * BYTES + LINES;

// A line each for public key, message and head, and for every frame.
pub fn lines(set: ParameterSet) -> usize
    ensures { (result ≡ lines_of set.shape) × (result ≤ 44) }
{
    3 + set.shape.executions
}

// "public key, message (may be empty ..), the 96 head bytes, 41 frames": what each line stands for, with m bytes of message. Of these a card has the
// first `lines(shape)`.
pub fn card_sizes(set: ParameterSet, m: usize) -> [usize; LINES]
    ensures { take (lines_of set.shape) result ≡ card_sizes set.shape m }
{
    let mut sizes = [frames::frame_length(set); LINES];
    sizes[0] = sets::public_key_length(set);
    sizes[1] = m;
    sizes[2] = heads::LENGTH;
    sizes
}
