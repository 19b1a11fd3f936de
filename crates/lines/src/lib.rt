// Operator lines: demand 3, as theorems about the definition. No code.
#![tactic(auto)]
