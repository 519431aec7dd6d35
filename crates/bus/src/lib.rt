// Layer 2, the bus: the registers and their image, the display memory, and what each of the four bus events does to them.
#![tactic(auto)]

pub mod accepted;
pub mod answer;
pub mod calls;
pub mod command;
pub mod data;
pub mod image;
mod obey;
mod pieces;
mod places;
mod put;
pub mod registers;
mod same;
pub mod start;
pub mod stretch;
