// What the rig's C host calls to run a recorded wide trace: by itself, so that the run has the one call of what the wide events use too (DECISIONS 58).
// Names, numbers for refusals, values handed out through references, and state and memory lent one by one: C's interface (host/ssd1815b.h).
#![tactic(auto)]

pub mod run;
