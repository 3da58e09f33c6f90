// What an instance says of an atom: how a row compares with the rows of a relation.

#![tactic(auto)]

pub mod probe;
pub mod relation;
pub mod row;
pub mod rows;
