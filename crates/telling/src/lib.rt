// The requests on which two states reply differently. No code: the theorems about it are in `equal_images`.

#![tactic(auto)]
