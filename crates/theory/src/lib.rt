// Theorems about `rules` (proofs/Lib.antt is their index). There is no function.
#![tactic(auto)]
