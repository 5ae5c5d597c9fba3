// Numbers in byte slices, low byte first.
#![tactic(auto)]

ghost use Rattle.std.specs.Prelude.{◌≡◌, [], ◌∷◌, ◌+◌, ◌≤◌, length};
ghost use Rattle.slices.specs.Lists.{part, put};
ghost use Rattle.slices.specs.Numbers.{number, bytes_of};

// The number of w bytes at index at. Where w is known as 8, this compiles to one load.
pub fn load(s: &[u8], at: usize, w: usize) -> u64
    requires { (w ≤ 8) × (at + w ≤ length s.now) }
    ensures { result ≡ number (part at w s.now) }
{
    let mut x = 0;
    for b in s[at..at + w].iter().rev() {
        x = *b as u64 + x * 256;
    }
    x
}

// The number of four bytes.
fn join4(b0: u8, b1: u8, b2: u8, b3: u8) -> u32
    ensures { result ≡ number (b0 ∷ b1 ∷ b2 ∷ b3 ∷ []) }
{
    b0 as u32 + 0x100 * (b1 as u32) + 0x1_0000 * (b2 as u32) + 0x100_0000 * (b3 as u32)
}

// The number of the four bytes at index at.
fn load4(s: &[u8], at: usize) -> u32
    requires { at + 4 ≤ length s.now }
    ensures { result ≡ number (part at 4 s.now) }
{
    join4(s[at], s[at + 1], s[at + 2], s[at + 3])
}

// The number of the eight bytes at index at. As a sum, and not by a loop, it compiles to one load.
pub fn load8(s: &[u8], at: usize) -> u64
    requires { at + 8 ≤ length s.now }
    ensures { result ≡ number (part at 8 s.now) }
{
    load4(s, at) as u64 + 0x1_0000_0000 * (load4(s, at + 4) as u64)
}

// Writes the w low bytes of x at index at.
pub fn store(s: &mut [u8], at: usize, w: usize, x: u64)
    requires { (w ≤ 8) × (at + w ≤ length s.old) }
    ensures { s.new ≡ put s.old at (bytes_of w x) }
{
    for (i, b) in s[at..at + w].iter_mut().enumerate() {
        *b = ((x >> (8 * i)) % 256) as u8;
    }
}
