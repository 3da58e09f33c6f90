// The two ways to join truth values.
ghost use Rattle.std.specs.Prelude.{◌≡◌};
ghost use Rattle.calculus.specs.Eval.{settles as settlesOf};
ghost use Rattle.calculus.specs.Kleene.{join as join_of, unit as unit_of};
ghost use Rattle.evaluate.specs.Junction.{junction_of};

use calculus::truth::{Truth, and, or};

#[derive(Clone, Copy)]
pub enum Junction {
    And,
    Or,
}

impl Junction {
    pub fn join(self, a: Truth, b: Truth) -> Truth
        ensures { result ≡ join_of (junction_of self) a b }
    {
        match self {
            Junction::And => and(a, b),
            Junction::Or => or(a, b),
        }
    }

    // Whether a verdict decides a junction, whatever the verdicts after it are.
    pub fn settles(self, a: Truth) -> bool
        ensures { result ≡ settlesOf (junction_of self) a }
    {
        match self {
            Junction::And => a == Truth::False,
            Junction::Or => a == Truth::True,
        }
    }

    // What joining no verdicts gives.
    pub fn unit(self) -> Truth
        ensures { result ≡ unit_of (junction_of self) }
    {
        match self {
            Junction::And => Truth::True,
            Junction::Or => Truth::False,
        }
    }
}
