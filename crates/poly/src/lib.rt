// Definitions and laws alone: polynomials over any field of characteristic 2.
#![tactic(auto)]
