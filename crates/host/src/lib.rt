// What the rig's C host calls of traces, frames, listings and comparisons, on numbers, images and byte slices; crates/hostbus has the events. host/ssd1815b.h declares
// them under one prefix, and each has the statement of the call below it.
// Names, numbers for refusals, values handed out through references, and state and memory lent one by one: C's interface (host/ssd1815b.h).
#![tactic(auto)]

pub mod compare;
pub mod draw;
pub mod list;
pub mod record;
pub mod run;
