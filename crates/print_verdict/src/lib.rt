// What is printed of an answer: "`accepted`, or `refused`, number, place, with single spaces and a line end".
#![tactic(auto)]

ghost use Rattle.std.specs.Prelude.{◌≡◌, ◌++◌, ◌+◌, ◌≤◌, length, drop};
ghost use Rattle.slices.specs.Lists.{put};
ghost use Rattle.banquet.specs.Card.{decimal as decimal_of, refusal_line, printed};

use banquet::Verdict;

// Puts n's decimal digits from index `at` on, and returns where they end.
fn decimal(n: u32, out: &mut [u8], at: usize) -> usize
    requires { at + length (decimal_of n) ≤ length out.old }
    ensures value { result ≡ at + length (decimal_of n) }
    ensures out_after { out.new ≡ put out.old at (decimal_of n) }
{
    if n < 10 {
        out[at] = b'0' + n as u8;
        return at + 1;
    }
    let end = decimal(n / 10, out, at);
    out[end] = b'0' + (n % 10) as u8;
    end + 1
}

// A refusal's line, at the front of `out`; returns its length.
pub fn print_refusal(number: u32, place: u32, out: &mut [u8]) -> usize
    requires { 30 ≤ length out.old }
    ensures value { result ≡ length (refusal_line number place) }
    ensures out_after { out.new ≡ refusal_line number place ++ drop result out.old }
{
    slices::copy_at(out, 0, b"refused ");
    let space = decimal(number, out, 8);
    out[space] = b' ';
    let end = decimal(place, out, space + 1);
    out[end] = b'\n';
    end + 1
}

// An answer's line, at the front of `out`; returns its length.
pub fn print_verdict(verdict: Verdict, out: &mut [u8]) -> usize
    requires { 30 ≤ length out.old }
    ensures value { result ≡ length (printed verdict) }
    ensures out_after { out.new ≡ printed verdict ++ drop result out.old }
{
    if verdict.number == 0 {
        slices::copy_at(out, 0, b"accepted\n");
        return 9;
    }
    print_refusal(verdict.number as u32, verdict.place as u32, out)
}
