// The answer of a rerun that is not refused before the fills: run A's verdict, and run B's answer.
use answer::asked::{Asked, Verdict};

#[derive(Clone, Copy, Debug, PartialEq, Eq)]
pub struct Reran {
    pub first: Verdict,
    pub second: Asked,
}
