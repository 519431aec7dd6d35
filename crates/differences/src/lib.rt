// Order 1 of document 02: where two frames, or two memories, differ, as entries in a lent list buffer.
#![tactic(auto)]

mod byte;
pub mod frames;
mod list;
pub mod memories;
mod run;
