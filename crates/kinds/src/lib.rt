// No code: specs/ says what a request of each kind makes of the rows of a unit, proofs/ has its laws.

#![tactic(auto)]
