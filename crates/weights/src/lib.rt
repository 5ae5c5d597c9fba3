// Definitions and laws alone: the weights of Lagrange's polynomials, each shown right by a computed test.
#![tactic(auto)]
