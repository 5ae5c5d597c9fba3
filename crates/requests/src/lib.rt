// Cards for requests to sign.
#![tactic(auto)]

ghost use Rattle.std.specs.Prelude.{◌≡◌, ◌++◌, ◌≤◌, length, drop, replicate};
ghost use Rattle.banquet.specs.Shape.{message_limit, signature_length};
ghost use Rattle.banquet.specs.Sets.{base, scheme_of, base_scheme};
ghost use Rattle.card_theorems.specs.Cards.{card_length};
ghost use Rattle.card_sizes.specs.Lines.{card_bytes};
ghost use Rattle.requests.specs.Requests.{request_sizes, request_output};
ghost use Rattle.requests.specs.Read.{Read};

use sets::{ParameterSet, Parties16};

// The bytes that the longest request of document 01's set stands for: key, public key, message, salt, and a root seed for each execution.
pub const BYTES: usize = 16
    + (Parties16::SHAPE.front + 16)
    + banquet::MESSAGE_LIMIT
    + 32
    + Parties16::SHAPE.executions * 16;

// Its text: two digits a byte, and an end for each line.
pub const TEXT: usize = 2 * BYTES + 5;

// What each line of a request stands for.
fn request_sizes(set: ParameterSet) -> [usize; 5]
    ensures { result ≡ request_sizes set.shape message_limit }
{
    [
        16,
        sets::public_key_length(set),
        banquet::MESSAGE_LIMIT,
        32,
        set.shape.executions * 16,
    ]
}

// A request of any set, in form, is signed: `request` has what its text stands for, and `signature` is room for one. The set's cards stand for no
// more bytes than the longest of document 01's set.
fn sign_request(
    set: ParameterSet,
    text: &[u8],
    request: &[u8],
    signature: &mut [u8],
    out: &mut [u8],
) -> usize
    requires { Read (scheme_of set.shape) text.now request.now × (signature.old ≡ replicate (signature_length set.shape) 0)
        × (card_bytes set.shape message_limit ≤ card_bytes base message_limit) × (card_length set.shape message_limit ≤ length out.old) }
    ensures value { result ≡ length (request_output (scheme_of set.shape) text.now) }
    ensures out_after { out.new ≡ request_output (scheme_of set.shape) text.now ++ drop result out.old }
{
    let start = 16 + sets::public_key_length(set);
    let end = (text.len() - 5) / 2;
    let seeds = end - set.shape.executions * 16;
    let salt = seeds - 32;
    let public = &request[16..start];
    let message = &request[start..salt];
    let mut work = [0u8; banquet::WORK_LENGTH];
    if let Err(refusal) = sign_message::sign_message(
        set,
        &request[0..16],
        public,
        message,
        &request[salt..seeds],
        &request[seeds..end],
        signature,
        &mut work,
    ) {
        return print_verdict::print_verdict(verdict::verdict(Err(refusal)), out);
    }
    write_card::write_card(set, public, message, signature, out)
}

// What is written for a request to sign, of document 01's set, at the front of `out`; returns its length.
pub fn print_request(text: &[u8], out: &mut [u8]) -> usize
    requires { card_length base message_limit ≤ length out.old }
    ensures value { result ≡ length (request_output base_scheme text.now) }
    ensures out_after { out.new ≡ request_output base_scheme text.now ++ drop result out.old }
{
    let sizes = request_sizes(Parties16::SET);
    let mut request = [0u8; BYTES];
    if let Err(refusal) = text_lines::read_lines(text, &sizes, 3, &mut request) {
        return print_verdict::print_verdict(verdict::verdict(Err(refusal)), out);
    }
    let mut signature = [0u8; card_sizes::SIGNATURE];
    sign_request(Parties16::SET, text, &request, &mut signature, out)
}
