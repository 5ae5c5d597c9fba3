// Numbers that stand one after the other in a byte slice, each of w bytes, low byte first: wide elements.
#![tactic(auto)]

ghost use Rattle.std.specs.Prelude.{◌≡◌, ◌*◌, ◌≤◌, length, get_or};
ghost use Rattle.slices.specs.Lists.{tab};
ghost use Rattle.slices.specs.Numbers.{number_at, numbers};

// As many numbers as out has room for.
pub fn load(w: usize, s: &[u8], out: &mut [u64])
    requires { (w ≤ 8) × (length out.old * w ≤ length s.now) }
    ensures { out.new ≡ tab (λ k. number_at w k s.now) (length out.old) }
{
    for (k, x) in out.iter_mut().enumerate() {
        *x = numbers::load(s, k * w, w);
    }
}

// The w low bytes of each number.
pub fn store(w: usize, values: &[u64], out: &mut [u8])
    requires { (w ≤ 8) × (length out.old ≡ length values.now * w) }
    ensures { out.new ≡ numbers w (length values.now) (λ k. get_or values.now k 0) }
{
    for (k, x) in values.iter().enumerate() {
        numbers::store(out, k * w, w, *x);
    }
}
