// What callers of the entries get, as theorems about what the calls ensure. No code.
#![tactic(auto)]
