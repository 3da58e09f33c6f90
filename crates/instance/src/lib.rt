// The instance (document 01: the plot): a header by value, and rows as words in a lent slice.

#![tactic(auto)]

pub mod cells;
pub mod eight;
pub mod header;
pub mod room;
pub mod scan;
