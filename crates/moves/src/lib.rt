// The fewest moves inside a sector: document 01, item 7.
#![tactic(auto)]

pub mod open_cells;
pub mod spread;
