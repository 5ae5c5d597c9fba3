// AES-128 of FIPS 197 and what its S-boxes are given (specs/). The functions are in the crates `steps`, `key_schedule` and `cipher`.
#![tactic(auto)]
