// The directory: set-up and the ten calls, over tables and memories that the caller lends.
#![tactic(auto)]

pub mod check;
pub mod checks;
pub mod commit;
pub mod due;
pub mod poll;
pub mod progress;
pub mod send;
pub mod setup;
mod slots;
pub mod tables;
pub mod take;
pub mod transact;
pub mod trim;
pub mod work;
