// The lines that `hallroute` prints, each written to a text of fixed room: document 01, "Program `hallroute`".
#![tactic(auto)]

pub mod lines;
pub mod numbers;
