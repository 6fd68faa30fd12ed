// The calls on a hall file, each for every input: document 01, "Calls and their numbers, in order", and document 02.
#![tactic(auto)]

pub mod read;
pub mod write;
