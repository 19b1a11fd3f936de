// Theorems about the definition alone stand in specs/: this crate has no code.
#![tactic(auto)]
