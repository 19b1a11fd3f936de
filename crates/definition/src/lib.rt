// What a reader must believe stands in specs/: this crate has no code.
#![tactic(auto)]
