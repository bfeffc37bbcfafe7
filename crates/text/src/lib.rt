// Step files as text: a line for each entry, and back.
#![tactic(auto)]

pub mod fault;
mod fields;
pub mod parse;
pub mod print;
#[cfg(test)]
mod tests;
mod words;
