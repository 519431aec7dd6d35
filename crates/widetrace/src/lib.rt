// The run of a recorded trace over the wide terminal.
#![tactic(auto)]

mod heed;
mod kept;
pub mod run;
mod side;
