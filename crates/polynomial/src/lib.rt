// Sums of values times powers of places, and polynomials over the field: theory alone, defined in specs/ and proved in proofs/.
#![tactic(auto)]
