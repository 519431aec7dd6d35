// What the rig's C host calls of the wide terminal, on numbers, images and byte slices. host/ssd1815b.h declares them under one prefix, and each has the statement of the call below it. What is C's is kept for it in every file: names, numbers for selections, sides and refusals, values handed out through references, and states and memories lent one by one (host/ssd1815b.h).
#![tactic(auto)]

pub mod draw;
pub mod events;
pub mod list;
pub mod page;
