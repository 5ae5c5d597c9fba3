// How a signature's frames are made, step by step: definitions and laws, no code.
#![tactic(auto)]
