// Theorems over the definitions of `model`: specs/ holds them.

#![tactic(auto)]

pub fn nothing() {}
