// Borders of a sector, marks of its sides, and windows of a mark: document 01, item 8.
#![tactic(auto)]

pub mod border;
pub mod marks;
pub mod runs;
pub mod windows;
