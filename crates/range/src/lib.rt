// What quantifiers range over without a list of it: flags for the words that a walk passes over.

#![tactic(auto)]

mod pass;
pub mod terms;
