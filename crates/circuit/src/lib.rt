// AES on shares and what its products show (specs/). The functions are in the crate `shares`.
#![tactic(auto)]
