// Public keys for pairs of key and plaintext, a pair a line, for document 01's set.
#![tactic(auto)]

ghost use Rattle.std.specs.Prelude.{◌≡◌, ◌++◌, ◌≤◌, length, drop};
ghost use Rattle.banquet.specs.Calls.{written};
ghost use Rattle.banquet.specs.Sets.{base_scheme};
ghost use Rattle.pairs.specs.Pairs.{make_pair, pair_line};

use banquet::{Answer, Verdict};

// The public key of a pair, or why there is none. A line that breaks its form is refused as 18, and leaves `public` untouched as every refusal does.
pub fn make_pair(text: &[u8], public: &mut [u8]) -> Answer
    ensures { written result public.new ≡ make_pair base_scheme text.now public.old }
{
    let mut pair = [0u8; 32];
    text_lines::read_lines(text, &[32], 0, &mut pair)?;
    public_key::make_public_key(&pair[0..16], &pair[16..32], public)
}

// What is written for line n of the pairs, at the front of `out`; returns its length.
pub fn print_pair(verdict: Verdict, public: &[u8], n: u32, out: &mut [u8]) -> usize
    requires { (length public.now ≡ 32) × (65 ≤ length out.old) }
    ensures value { result ≡ length (pair_line verdict public.now n) }
    ensures out_after { out.new ≡ pair_line verdict public.now n ++ drop result out.old }
{
    if verdict.number == 0 {
        encode_lines::encode_lines(public, &[32], &mut out[0..65]);
        return 65;
    }
    if verdict.number == 18 {
        return print_verdict::print_refusal(18, n, out);
    }
    print_verdict::print_verdict(verdict, out)
}
