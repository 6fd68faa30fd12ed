// The choice of a start and an end portal: all ends searched at once for the start, then the end of the least run from it. Document 01, "A route".
#![tactic(auto)]

mod ends;
pub mod pair;
pub mod places;
