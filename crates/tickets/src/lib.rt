// A transaction as a ticket: a wrong order of its calls does not build.
#![tactic(auto)]

pub mod draft;
pub mod filing;
pub mod standing;
#[cfg(test)]
mod tests;
