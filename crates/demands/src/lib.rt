// The owner's demands as theorems over the promises of the calls (proofs/Lib.antt is their index). There is no function.
#![tactic(auto)]
