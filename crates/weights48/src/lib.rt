// Definitions and laws alone: the weights of Lagrange's polynomials in the field of 2^48 elements, each shown right by a computed test.
#![tactic(auto)]
