// Exports for the benchmark in C (bench/run).
#![tactic(auto)]

ghost use Rattle.std.specs.Prelude.{◌≡◌, length};
ghost use Rattle.keccak.specs.Keccak.{keccak_f};
ghost use Rattle.shake.specs.Shake128.{shake128};

#[unsafe(no_mangle)]
pub extern "C" fn bench_permute(s: &mut [u64; 25])
    ensures { s.new ≡ keccak_f s.old }
{
    permutation::permute(s);
}

#[unsafe(no_mangle)]
pub extern "C" fn bench_digest(src: &[u8], out: &mut [u8])
    ensures { out.new ≡ shake128 src.now (length out.old) }
{
    sponge::digest(src, out);
}
