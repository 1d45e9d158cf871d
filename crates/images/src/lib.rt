// Tables and images, read and written, and what is reached from them. No code: the statements are listed in docs/THEOREMS.md.

#![tactic(auto)]
