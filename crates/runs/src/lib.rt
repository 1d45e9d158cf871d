// Whole runs: the marked run, the program, and runs that meet the hypotheses of the theorems. No code: the statements are listed in docs/THEOREMS.md.

#![tactic(auto)]
