// Theorems on card text; specs/ has them.
#![tactic(auto)]
