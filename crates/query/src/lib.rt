// The question: the check of its words.

#![tactic(auto)]

pub mod check;
pub mod inked;
mod node;
pub mod scopes;
mod term;
pub mod words;
