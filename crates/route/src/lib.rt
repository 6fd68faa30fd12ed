// The search for a route: near portals, the choice of a pair, its path, the steps. Document 01, "A route".
#![tactic(auto)]

pub mod find;
