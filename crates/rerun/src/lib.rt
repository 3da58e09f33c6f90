// Run A, a list of fills and run B: demand 3 as one call.

#![tactic(auto)]

mod fills;
pub mod reran;
pub mod rerun;
