// A hall file: the entries that are read from one, and the file that is made of a floor.
#![tactic(auto)]

pub mod entries;
pub mod made;
