// The commit protocol: its plain types here, its rules as definitions in specs/.
#![tactic(auto)]

pub mod call;
pub mod invariant;
pub mod lines;
pub mod numbers;
pub mod plan;
pub mod record;
pub mod worked;
