// What the worked programs share: the headers of their plots, and printing.

#![tactic(auto)]

pub mod plots;
pub mod show;
