// The run of a recorded trace over the bus.
#![tactic(auto)]

pub mod kind;
pub mod reader;
mod record;
pub mod records;
pub mod run;
