// The image reader: any bytes in, a verdict out; and what stands at a position of an accepted image's code.
#![tactic(auto)]

pub mod reader;
pub mod records;
pub mod starts;
