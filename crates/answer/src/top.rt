// The answer of a question's top node.
ghost use Rattle.std.specs.Prelude.{◌≡◌, ◌<◌, ◌≤◌, length};
ghost use Rattle.calculus.specs.Formula.{assignment, variables};
ghost use Rattle.query.specs.Words.{node_count};
ghost use Rattle.evaluate.specs.Within.{within};
ghost use Rattle.evaluate.specs.Asking.{ReadyIn};
ghost use Rattle.answer.specs.Top.{RangedIn, outcome_in};
ghost use Rattle.answer.specs.Ask.{evaluated_as};

use super::asked::{Asked, Verdict};
use calculus::refusal::Refusal;
use evaluate::evaluated::Evaluated;
use evaluate::nodes::Asking;

// The values of the variables: the candidate's cells for the first ones, 0 for the others.
fn assigned(candidate: &[u32]) -> [u32; 16]
    requires { length candidate.now ≤ variables }
    ensures { result ≡ assignment candidate.now }
{
    let mut env = [0u32; 16];
    env[..candidate.len()].copy_from_slice(candidate);
    env
}

// Evaluates the top node.
pub fn answer_top(asking: &Asking, candidate: &[u32], budget: u32) -> Asked
    requires ready { ReadyIn asking.now × RangedIn asking.now }
    requires query_nonzero { (0 < node_count asking.now.query.now) × (length candidate.now ≤ variables) }
    ensures { result ≡ evaluated_as (within budget (outcome_in asking.now (assignment candidate.now))) }
{
    let mut env = assigned(candidate);
    match asking.evaluate(0, &mut env, budget) {
        Evaluated::Verdict(truth, cost) => Ok(Verdict { truth, cost }),
        Evaluated::Spent => Err(Refusal::BudgetSpent),
    }
}
