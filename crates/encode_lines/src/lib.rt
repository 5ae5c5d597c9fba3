// Bytes are written as lines of text in hexadecimal. A form is how many bytes each line stands for.
#![tactic(auto)]

ghost use Rattle.std.specs.Prelude.{◌≡◌, ◌+◌, ◌*◌, length};
ghost use Rattle.slices.specs.Layout.{total};
ghost use Rattle.banquet.specs.Card.{encoded_lines};

// The text of this form that stands for the bytes.
pub fn encode_lines(s: &[u8], sizes: &[usize], out: &mut [u8])
    requires { (length s.now ≡ total sizes.now) × (length out.old ≡ 2 * total sizes.now + length sizes.now) }
    ensures { out.new ≡ encoded_lines sizes.now s.now }
{
    let mut p = 0;
    for (i, size) in sizes.iter().enumerate() {
        let q = p + size;
        let a = 2 * p + i;
        let b = 2 * q + i;
        hex_digits::encode(&s[p..q], &mut out[a..b]);
        out[b] = b'\n';
        p = q;
    }
}
