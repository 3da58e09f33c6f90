// Reading bytes from the front: numbers of one to four bytes.

#![tactic(auto)]

pub mod front;
pub mod number;
