// Vectors of three integers, where segments meet, and a ring normaliser, for the proofs of the crates above: definitions and lemmas, no code.
#![tactic(auto)]
