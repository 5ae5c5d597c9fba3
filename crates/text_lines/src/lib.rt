// Lines of text in hexadecimal: their form is checked, and bytes are read from them. A form is how many bytes each line stands for.
#![tactic(auto)]

ghost use Rattle.std.specs.Prelude.{◌≡◌, ◌<◌, ◌≤◌, length};
ghost use Rattle.slices.specs.Layout.{total};
ghost use Rattle.slices.specs.Lists.{found};
ghost use Rattle.banquet.specs.Answer.{accepted, output_after};
ghost use Rattle.banquet.specs.Card.{decoded_lines, has_size, check_lines};
ghost use Rattle.text_lines.specs.Lines.{line_end};

use banquet::{Answer, Refusal, Symbol};

// How long the first line of a text is, if it is of digits and is ended.
fn line_end(text: &[u8]) -> Option<usize>
    ensures { result ≡ found (length text.now) (line_end text.now) }
{
    for (i, byte) in text.iter().enumerate() {
        match hex_digits::symbol(*byte) {
            Symbol::Value(_) => {}
            Symbol::LineEnd => return Some(i),
            Symbol::Other => return None,
        }
    }
    None
}

#[tactic(auto, unfolding(banquet::specs::Card::has_size))]
fn has_size(shorter: bool, size: usize, digits: usize) -> bool
    ensures { result ≡ has_size shorter size digits }
{
    if digits % 2 != 0 {
        return false;
    }
    let bytes = digits / 2;
    if shorter {
        return bytes <= size;
    }
    bytes == size
}

// Number 18: the first line that has not the form. Line `message` may be shorter.
fn check_lines(text: &[u8], sizes: &[usize], message: usize) -> Answer
    requires { length sizes.now < 255 }
    ensures { result ≡ check_lines message sizes.now 1 text.now accepted }
{
    let mut at = 0;
    for (i, size) in sizes.iter().enumerate() {
        match line_end(&text[at..]) {
            Some(digits) if has_size(i + 1 == message, *size, digits) => at += digits + 1,
            _ => return Err(Refusal::TextForm((i + 1) as u8)),
        }
    }
    if at != text.len() {
        return Err(Refusal::TextForm((sizes.len() + 1) as u8));
    }
    Ok(())
}

// The bytes that a text of the form stands for, at the front of `out`.
fn decode_lines(text: &[u8], sizes: &[usize], message: usize, out: &mut [u8])
    requires { (check_lines message sizes.now 1 text.now accepted ≡ accepted) × (total sizes.now ≤ length out.old) }
    ensures { out.new ≡ output_after accepted (decoded_lines (length sizes.now) text.now) out.old }
{
    let mut at = 0;
    let mut p = 0;
    for _ in sizes {
        let end = at + line_end(&text[at..]).unwrap();
        let q = p + (end - at) / 2;
        hex_digits::decode(&text[at..end], &mut out[p..q]);
        at = end + 1;
        p = q;
    }
}

// The form is checked; where it holds, the bytes that the text stands for are put at the front of `out`, else nothing is.
pub fn read_lines(text: &[u8], sizes: &[usize], message: usize, out: &mut [u8]) -> Answer
    requires { (length sizes.now < 255) × (total sizes.now ≤ length out.old) }
    ensures value { result ≡ check_lines message sizes.now 1 text.now accepted }
    ensures out_after { out.new ≡ output_after result (decoded_lines (length sizes.now) text.now) out.old }
{
    check_lines(text, sizes, message)?;
    decode_lines(text, sizes, message, out);
    Ok(())
}
