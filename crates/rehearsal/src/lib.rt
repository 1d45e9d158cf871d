// Rehearsal of a plant, as definitions and theorems; no code.

#![tactic(auto)]
