// What build and change do once they are not refused, on a hall of separate lists.
#![tactic(auto)]

pub mod build;
pub mod change;
pub mod marks;
