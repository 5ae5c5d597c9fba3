// The sum of the hashes of the parties' seeds.
#![tactic(auto)]

ghost use Rattle.std.specs.Prelude.{◌≡◌, ◌*◌, ◌≤◌, ◌<◌, length};
ghost use Rattle.slices.specs.Lists.{row, zip_xor, sum_xor};
ghost use Rattle.party.specs.Party.{party_hash};

// Adds the hash of a seed to a sum as long.
fn add_hash(tag: u8, salt: &[u8], e: u8, i: u8, seed: &[u8], scratch: &mut [u8], sum: &mut [u8])
    requires { (length salt.now ≡ 32) × (length seed.now ≡ 16) × (length scratch.old ≡ length sum.old) }
    ensures { sum.new
        ≡ zip_xor sum.old (party_hash tag salt.now e i seed.now (length sum.old)) }
{
    party::hash(tag, salt, e, i, seed, scratch);
    xor::xor_into(sum, scratch);
}

// The sum of the hashes of n seeds.
pub fn hash_sum(tag: u8, salt: &[u8], e: u8, n: usize, seeds: &[u8], out: &mut [u8])
    requires { (length salt.now ≡ 32) × (0 < n) × (n ≤ 256) × (n * 16 ≤ length seeds.now) × (length out.old ≤ 512) }
    ensures { out.new
        ≡ sum_xor n (λ i. party_hash tag salt.now e i (row 16 i seeds.now) (length out.old)) }
{
    let len = out.len();
    let mut scratch = [0u8; 512];
    slices::zero(out);
    for i in 0..n {
        let s = i * 16;
        let t = s + 16;
        add_hash(
            tag,
            salt,
            e,
            i as u8,
            &seeds[s..t],
            &mut scratch[0..len],
            out,
        );
    }
}
