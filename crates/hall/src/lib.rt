// The public calls that make, change and show a store, each for every input: document 01, "Calls and their numbers, in order".
#![tactic(auto)]

pub mod build;
pub mod change;
pub mod check;
pub mod windows;
