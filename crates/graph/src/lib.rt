// The portal graph of a store: its portals, the moves to them, and its edges. Document 01, item 8, second part.
#![tactic(auto)]

pub mod edges;
pub mod near;
pub mod portals;
pub mod table;
