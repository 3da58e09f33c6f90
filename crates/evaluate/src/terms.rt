// Terms, and the verdict of an equality.
ghost use Rattle.std.specs.Prelude.{◌≡◌, true, ◌<◌};
ghost use Rattle.calculus.specs.Padded.{padded};
ghost use Rattle.calculus.specs.Formula.{value, values};
ghost use Rattle.instance.specs.Header.{max_columns};
ghost use Rattle.calculus.specs.Closed.{equality as equalityOf};
ghost use Rattle.query.specs.Words.{node_count, node_words, word_at};
ghost use Rattle.query.specs.Tree.{term_of, terms_at};
ghost use Rattle.query.specs.Check.{is_term};
ghost use Rattle.evaluate.specs.Ready.{TermsWellFormed};

use calculus::cell::CONSTANTS;
use calculus::truth::Truth;
use query::words::{NODE_WORDS, VARIABLE_BASE};

// Whether two cells are equal: true if they are the same, false if they are two different constants, otherwise unknown.
pub fn same(a: u32, b: u32) -> Truth
    ensures { result ≡ equalityOf a b }
{
    if a == b {
        return Truth::True;
    }
    if CONSTANTS <= a || CONSTANTS <= b {
        return Truth::Unknown;
    }
    Truth::False
}

// The value of the term in word j of a node.
pub fn term(query: &[u32], node: usize, j: usize, env: &[u32; 16]) -> u32
    requires node_bound { (node < node_count query.now) × (j < node_words) }
    requires j_value { is_term (word_at query.now node j) ≡ true }
    ensures { result ≡ value env.now (term_of (word_at query.now node j)) }
{
    let w = query[node * NODE_WORDS + j];
    if w < VARIABLE_BASE {
        return w;
    }
    let v = (w - VARIABLE_BASE) as usize;
    env[v]
}

// The values of a node's terms, padded with 0; an atom's terms begin at word 2.
pub fn asked_row(query: &[u32], node: usize, arity: usize, env: &[u32; 16]) -> [u32; 6]
    requires { TermsWellFormed query.now node arity }
    ensures { result ≡ padded max_columns (values env.now (terms_at query.now node 2 arity)) }
{
    let mut row = [0u32; 6];
    // By index: a term and its cell stand at two indices.
    for j in 0..arity {
        row[j] = term(query, node, 2 + j, env);
    }
    row
}
