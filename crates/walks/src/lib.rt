// The walks from a cell that scaling goes by: document 01, item 7. They go over a board of the plain floor with walls around it.
#![tactic(auto)]

pub mod board;
pub mod walk;
