// Whether one seat's parts of the lent buffers are those of a sound claim.
#![tactic(auto)]

pub mod sound;
