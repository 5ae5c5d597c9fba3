// SHAKE128 of FIPS 202 (specs/). The functions are in the crate `sponge`.
#![tactic(auto)]
