// The scheme's definitions, computed for a toy set, hash and circuit (specs/). vectors/toy.py has the expected values.
#![tactic(auto)]
