// Which handler an event goes to.
#![tactic(auto)]

pub mod hearing;
pub mod stamps;
