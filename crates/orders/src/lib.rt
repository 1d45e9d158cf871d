// Orders of a list and sums over one. No code: definitions and their laws.

#![tactic(auto)]
