// The search over the portal graph: the least keys to one portal, or from any beginning. Document 01, "Stand-in for petgraph".
#![tactic(auto)]

pub mod keys;
pub mod queue;
