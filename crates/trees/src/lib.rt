// Trees: theorems about the rows of an accepted table. No code.
#![tactic(auto)]
