// Cells, sides, sectors, directions, costs and flat steps: document 01, items 1 to 5; and what several crates need of numbers and lists.
#![tactic(auto)]

pub mod bits;
pub mod copies;
pub mod costs;
pub mod directions;
pub mod sectors;
pub mod sides;
pub mod steps;
