// Demand 3: images are equal exactly where every further list draws the same replies. No code: the statements are listed in docs/THEOREMS.md.

#![tactic(auto)]
