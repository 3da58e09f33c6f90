// Evaluation of a checked question within a budget.

#![tactic(auto)]

pub mod evaluated;
pub mod junction;
pub mod nodes;
mod terms;
