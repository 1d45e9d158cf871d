// Demand 1: the first refusal in the scope's order. No code: the statements are listed in docs/THEOREMS.md.

#![tactic(auto)]
