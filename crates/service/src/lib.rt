// A directory that owns its plan, tables and memories, and lends them to the calls.
#![tactic(auto)]

pub mod calls;
pub mod make;
pub mod owner;
pub mod readers;
pub mod run;
