// The rules of grammar.rs that hold no expression, each proved equal to its program of the definition.
#![tactic(auto)]

pub mod streams; // token streams, attributes, labels
pub mod paths; // paths and modifiers
pub mod patterns; // patterns
pub mod items; // structs, enums and use
