// The laws are in specs/. This function is here because a crate has a source.
#![tactic(auto)]

pub fn unused() -> u8 {
    0
}
