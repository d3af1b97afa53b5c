// The lent state of all seats: its limits, where each seat's parts lie, and whether the whole is sound.
#![tactic(auto)]

pub mod limits;
pub mod seats;
pub mod whole;
