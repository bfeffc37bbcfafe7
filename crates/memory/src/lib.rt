// Memories of versioned words: one contract, three makes, and what holds of every make.
#![tactic(auto)]

pub mod blank;
pub mod cells;
pub mod interface;
pub mod joined;
pub mod make;
pub mod packed;
pub mod request;
pub mod runs;
mod store;
#[cfg(test)]
mod tests;
pub mod word;
