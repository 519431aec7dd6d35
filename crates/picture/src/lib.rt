// Layer 3, the picture: three countings of rows, one row drawn, and the frame.
#![tactic(auto)]

pub mod draw;
mod page;
mod row;
pub mod rows;
mod whole;
