// What the rig's C host calls of the bus: the start, the four events and the power state, on numbers, images and byte slices. They are compiled apart from the run
// (crates/host): each object then has one call of what both use, and the compiler puts it in its place (DECISIONS 58).
// Names, numbers for refusals, values handed out through references, and state and memory lent one by one: C's interface (host/ssd1815b.h).
#![tactic(auto)]

pub mod events;
pub mod power_state;
pub mod start;
