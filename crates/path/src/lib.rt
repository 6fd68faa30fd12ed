// The least path between two portals, and the steps that it has. Document 01, "Stand-in for petgraph" and "A route".
#![tactic(auto)]

pub mod least;
pub mod steps;
