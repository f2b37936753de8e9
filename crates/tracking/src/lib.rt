// Sorted tables that are kept in step with faces, for the proofs of the index: definitions and lemmas, no code.
#![tactic(auto)]
