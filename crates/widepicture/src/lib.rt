// The picture of the wide terminal: the frames of two chips, side by side.
#![tactic(auto)]

pub mod draw;
mod whole;
