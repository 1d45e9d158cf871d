// Demand 2: security, exact replies, gets, effects and frames. No code: the statements are listed in docs/THEOREMS.md.

#![tactic(auto)]
