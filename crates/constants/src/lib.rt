// The sizes and the refusal numbers of documents 01 and 02, each named once.
#![tactic(auto)]

pub mod refusal;
pub mod sizes;
