// Playing a step file: each entry is handed to a directory, and a line says what it answered.
#![tactic(auto)]

pub mod row;
pub mod transcript;
