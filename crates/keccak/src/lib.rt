// Keccak-f[1600] of FIPS 202 (specs/). The function is in the crate `permutation`.
#![tactic(auto)]
