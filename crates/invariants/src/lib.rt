// What every request keeps: a state that is well formed and secure. No code: the theorems of the other crates stand on these laws.

#![tactic(auto)]
