// The step file: its frames, its entries, and the faults that a file can have.
#![tactic(auto)]

pub mod decode;
pub mod encode;
pub mod fault;
pub mod frame;
pub mod kind;
pub mod sequence;
#[cfg(test)]
mod tests;
pub mod write;
