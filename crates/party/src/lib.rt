// Hashes of the parties' seeds, which are tapes or commitments, one row for each party.
#![tactic(auto)]

ghost use Rattle.std.specs.Prelude.{◌≡◌, ◌*◌, ◌≤◌, length};
ghost use Rattle.slices.specs.Lists.{rows as rows_of, row};
ghost use Rattle.party.specs.Party.{party_hash};

// "salt, e, i, seed" after the byte shown.
pub fn hash(tag: u8, salt: &[u8], e: u8, i: u8, seed: &[u8], out: &mut [u8])
    requires { (length salt.now ≡ 32) × (length seed.now ≡ 16) }
    ensures { out.new ≡ party_hash tag salt.now e i seed.now (length out.old) }
{
    let mut m = [0u8; 51];
    m[0] = tag;
    m[33] = e;
    m[34] = i;
    slices::copy_at(&mut m, 1, salt);
    slices::copy_at(&mut m, 35, seed);
    sponge::digest(&m, out);
}

// The hashes of n seeds, len bytes each.
pub fn hash_rows(tag: u8, salt: &[u8], e: u8, n: usize, len: usize, seeds: &[u8], out: &mut [u8])
    requires { (length salt.now ≡ 32) × (n ≤ 256) × (n * 16 ≤ length seeds.now) × (length out.old ≡ n * len) }
    ensures { out.new ≡ rows_of (λ i. party_hash tag salt.now e i (row 16 i seeds.now) len) n }
{
    for i in 0..n {
        let s = i * 16;
        let t = s + 16;
        let a = i * len;
        let b = a + len;
        hash(tag, salt, e, i as u8, &seeds[s..t], &mut out[a..b]);
    }
}
