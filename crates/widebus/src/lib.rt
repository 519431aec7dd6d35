// The bus of the wide terminal: two chips, and a selection that says which of them an event is for.
#![tactic(auto)]

pub mod both;
pub mod calls;
pub mod page;
pub mod selection;
pub mod stretch;
