// Asking a question of an instance.

#![tactic(auto)]

mod admit;
pub mod ask;
pub mod asked;
mod top;
pub mod unlisted;
pub mod way;
