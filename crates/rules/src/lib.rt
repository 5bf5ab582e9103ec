// The rules of docs/RULES.md as definitions (specs/), and what is computed of them: the starred problems (proofs/Starred.antt), and examples of each order. There is no function.
#![tactic(auto)]
