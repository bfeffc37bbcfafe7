// What a machine does with a record, and what a coordinator sends it.
#![tactic(auto)]

pub mod handle;
pub mod lines;
pub mod logs;
pub mod records;
pub mod room;
