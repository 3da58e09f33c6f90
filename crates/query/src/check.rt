// The check of a question and its candidate.
ghost use Rattle.std.specs.Prelude.{◌≡◌, true, ◌≤◌};
ghost use Rattle.instance.specs.Header.{header_well_formed};
ghost use Rattle.query.specs.Words.{node_count, max_nodes, right_length};
ghost use Rattle.calculus.specs.Answer.{number_of};
ghost use Rattle.query.specs.Check.{check_nodes, check_number, check_query};
ghost use Rattle.query.specs.Answers.{Answers, checked_as};

use super::node::check_node;
use super::scopes::Scopes;
use super::words::{NODE_WORDS, Node};
use calculus::refusal::Refusal;
use instance::cells::are_cells;
use instance::header::{COLUMNS, Header};

// Checks the nodes in order, up to the first refusal. That the header is well formed stands in the contracts, here and
// in the steps, and in no type: the public calls take any header, so a type would be made and taken apart in one call.
fn check_nodes(header: &Header, query: &[u32], scopes: &mut Scopes) -> Result<(), Refusal>
    requires well_formed { header_well_formed header.now.relations header.now.arities ≡ true }
    requires few { node_count query.now ≤ max_nodes }
    ensures { Answers (check_nodes header.now.relations header.now.arities
        query.now 0 (node_count query.now) scopes.old) result scopes.new }
{
    for number in 0..query.len() / NODE_WORDS {
        check_node(header, &Node { query, number }, scopes)?;
    }
    Ok(())
}

// The first refusal of a question of the right length and its candidate, if there is one.
pub fn check(header: &Header, query: &[u32], candidate: &[u32]) -> Result<(), Refusal>
    requires well_formed { header_well_formed header.now.relations header.now.arities ≡ true }
    requires right { right_length query.now ≡ true }
    ensures answer { result ≡ checked_as (check_query header.now.relations header.now.arities query.now candidate.now) }
    ensures told { number_of result ≡ check_number (check_query header.now.relations header.now.arities
        query.now candidate.now) }
{
    if (COLUMNS as usize) < candidate.len() || !are_cells(candidate) {
        return Err(Refusal::BadCandidate);
    }
    check_nodes(header, query, &mut Scopes::at_the_top(candidate.len()))
}
