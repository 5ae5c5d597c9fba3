// Rows of two slices compared.
#![tactic(auto)]

ghost use Rattle.std.specs.Prelude.{◌≡◌, ◌||◌, ◌*◌, eqb, length};
ghost use Rattle.slices.specs.Lists.{found, row, same};
ghost use Rattle.compare.specs.Lowest.{lowest};

// The lowest row but `hidden` in which the slices differ: "parties in order, and within each its shares, up to the first difference".
pub fn first_difference(n: usize, len: usize, hidden: usize, a: &[u8], b: &[u8]) -> Option<usize>
    requires { (length a.now ≡ n * len) × (length b.now ≡ n * len) }
    ensures { result ≡ found n (lowest n 0 (λ i. eqb i hidden || same (row len i a.now) (row len i b.now))) }
{
    let mut found = None;
    'parties: for i in 0..n {
        if i != hidden {
            let at = i * len;
            for k in at..at + len {
                if a[k] != b[k] {
                    found = Some(i);
                    break 'parties;
                }
            }
        }
    }
    found
}
