// The check of one node by its kind.
ghost use Rattle.std.specs.Prelude.{◌≡◌, true, List, ℕ};
ghost use Rattle.calculus.specs.Kleene.{Junction};
ghost use Rattle.instance.specs.Header.{header_well_formed};
ghost use Rattle.query.specs.declared.scopes.Scopes.{Scopes};
ghost use Rattle.query.specs.Words.{node_count, row_stands, equals, negates, joins, ranges};
ghost use Rattle.query.specs.Check.{check_child, check_by, check_node};
ghost use Rattle.query.specs.Answers.{Answers};

use super::scopes::Scopes;
use super::term::{bind, check_terms};
use super::words::{Node, VARIABLES};
use calculus::refusal::Refusal;
use instance::header::Header;

// Checks that a child may be named, and names it, with its scope.
fn check_child(node: &Node, mask: u32, child: u32, scopes: &mut Scopes) -> Result<(), Refusal>
    ensures { Answers (check_child (node_count node.now.query.now) mask node.now.number child scopes.old)
        result scopes.new }
{
    let at = child as usize;
    if at <= node.number || node.count() <= at || scopes.named[at] {
        return Err(Refusal::BadChild);
    }
    scopes.name(at, mask);
    Ok(())
}

// Kind 1.
fn check_atom(header: &Header, node: &Node, mask: u32) -> Result<(), Refusal>
    requires { header_well_formed header.now.relations header.now.arities ≡ true }
    ensures { (s : Scopes) → Answers (check_by header.now.relations header.now.arities
        node.now.query.now node.now.number mask s row_stands) result s }
{
    let relation = node.word(1);
    if header.relations <= relation {
        return Err(Refusal::NoSuchQueryRelation);
    }
    let arity = header.arities[relation as usize] as usize;
    if !node.rest_is_zero(2 + arity) {
        return Err(Refusal::BadNode);
    }
    check_terms(node, mask, 2, arity)
}

// Kind 2.
fn check_equality(node: &Node, mask: u32) -> Result<(), Refusal>
    ensures { (n : ℕ) (ars : List ℕ) (s : Scopes) → Answers (check_by n ars
        node.now.query.now node.now.number mask s equals) result s }
{
    if !node.rest_is_zero(3) {
        return Err(Refusal::BadNode);
    }
    check_terms(node, mask, 1, 2)
}

// Kind 3.
fn check_negation(node: &Node, mask: u32, scopes: &mut Scopes) -> Result<(), Refusal>
    ensures { (n : ℕ) (ars : List ℕ) → Answers (check_by n ars
        node.now.query.now node.now.number mask scopes.old negates) result scopes.new }
{
    if !node.rest_is_zero(2) {
        return Err(Refusal::BadNode);
    }
    check_child(node, mask, node.word(1), scopes)
}

// Kinds 4 and 5.
fn check_junction(node: &Node, mask: u32, scopes: &mut Scopes) -> Result<(), Refusal>
    ensures { (n : ℕ) (ars : List ℕ) (j : Junction) → Answers (check_by n ars
        node.now.query.now node.now.number mask scopes.old (joins j)) result scopes.new }
{
    if !node.rest_is_zero(3) {
        return Err(Refusal::BadNode);
    }
    check_child(node, mask, node.word(1), scopes)?;
    check_child(node, mask, node.word(2), scopes)
}

// Kinds 6 and 7.
fn check_quantifier(node: &Node, mask: u32, scopes: &mut Scopes) -> Result<(), Refusal>
    ensures { (n : ℕ) (ars : List ℕ) (j : Junction) → Answers (check_by n ars
        node.now.query.now node.now.number mask scopes.old (ranges j)) result scopes.new }
{
    if !node.rest_is_zero(3) {
        return Err(Refusal::BadNode);
    }
    let variable = node.word(1);
    if VARIABLES <= variable {
        return Err(Refusal::UnboundVariable);
    }
    check_child(node, bind(mask, variable), node.word(2), scopes)
}

// Checks one node: that it is named, and that its words are right for its kind.
pub fn check_node(header: &Header, node: &Node, scopes: &mut Scopes) -> Result<(), Refusal>
    requires { header_well_formed header.now.relations header.now.arities ≡ true }
    ensures { Answers (check_node header.now.relations header.now.arities
        node.now.query.now node.now.number scopes.old) result scopes.new }
{
    if !scopes.named[node.number] {
        return Err(Refusal::BadChild);
    }
    let mask = scopes.masks[node.number];
    // By number: the kinds are words that C writes, and the project names this `match`.
    match node.word(0) {
        1 => check_atom(header, node, mask),
        2 => check_equality(node, mask),
        3 => check_negation(node, mask, scopes),
        4 | 5 => check_junction(node, mask, scopes),
        6 | 7 => check_quantifier(node, mask, scopes),
        _ => Err(Refusal::BadNode),
    }
}
