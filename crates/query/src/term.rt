// Terms, and the variables that are bound in a scope: a mask with bit v for variable v.
ghost use Rattle.std.specs.Prelude.{◌≡◌, true, ◌+◌, ◌≤◌, ◌<◌};
ghost use Rattle.calculus.specs.Formula.{variables};
ghost use Rattle.query.specs.declared.scopes.Scopes.{Scopes};
ghost use Rattle.query.specs.Words.{node_words};
ghost use Rattle.query.specs.Scope.{bound, binding};
ghost use Rattle.query.specs.Check.{is_term, is_bound, check_terms};
ghost use Rattle.query.specs.Answers.{Answers};

use super::words::{Node, VARIABLE_BASE, VARIABLES};
use calculus::cell::CONSTANTS;
use calculus::refusal::Refusal;

fn is_term(w: u32) -> bool
    ensures { result ≡ is_term w }
{
    w < CONSTANTS || (VARIABLE_BASE..VARIABLE_BASE + VARIABLES).contains(&w)
}

// Whether variable v is bound.
fn has(mask: u32, v: u32) -> bool
    requires { v < variables }
    ensures { result ≡ bound mask v }
{
    (mask >> v) % 2 == 1
}

// The scope in which v is bound too.
pub fn bind(mask: u32, v: u32) -> u32
    requires { v < variables }
    ensures { result ≡ binding mask v }
{
    mask | (1u32 << v)
}

fn is_bound(mask: u32, w: u32) -> bool
    requires { is_term w ≡ true }
    ensures { result ≡ is_bound mask w }
{
    w < CONSTANTS || has(mask, w - VARIABLE_BASE)
}

// Checks the terms in `count` words of a node, from word `from`.
pub fn check_terms(node: &Node, mask: u32, from: usize, count: usize) -> Result<(), Refusal>
    requires { from + count ≤ node_words }
    ensures { (s : Scopes) → Answers (check_terms node.now.query.now mask node.now.number from count s) result s }
{
    for w in node.words(from, count) {
        if !is_term(*w) {
            return Err(Refusal::BadNode);
        }
        if !is_bound(mask, *w) {
            return Err(Refusal::UnboundVariable);
        }
    }
    Ok(())
}
