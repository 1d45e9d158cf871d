// When the order of a list of requests matters. No code: definitions and theorems.

#![tactic(auto)]
