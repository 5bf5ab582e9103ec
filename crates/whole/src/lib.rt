// What the proofs need of whole numbers. Definitions are in specs/, laws in proofs/; there is no function.
#![tactic(auto)]
