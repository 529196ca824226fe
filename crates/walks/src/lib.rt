// Lemmas on the parts of a function's code, for proofs by hand; no code.
#![tactic(auto)]
