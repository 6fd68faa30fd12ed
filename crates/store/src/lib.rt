// The bytes of a hall: document 01, "Hall store and hall file".
#![tactic(auto)]

pub mod check;
pub mod layout;
pub mod opened;
pub mod reading;
