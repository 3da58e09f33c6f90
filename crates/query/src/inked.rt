// The inked terms of a question, by node and word.
ghost use Rattle.std.specs.Prelude.{◌≡◌, ◌<◌, ◌+◌, ◌*◌, length};
ghost use Rattle.query.specs.Words.{node_count, node_words, word_at, kind_of};
ghost use Rattle.query.specs.Named.{first_term, term_count, terms_of, constants_among, named_in, HasTerms};

use super::words::NODE_WORDS;
use calculus::cell::CONSTANTS;

// The index of a node's first term in the question. It does not depend on the arities, so the question alone will do.
pub fn terms_start(query: &[u32], node: usize) -> usize
    requires { (node_count query.now * node_words ≡ length query.now) × (node < node_count query.now) }
    ensures { result ≡ node * node_words + first_term (kind_of (word_at query.now node 0)) }
{
    // The kinds are numbers, here and in `count`: C writes them so, and the project names the `match` on them.
    if query[node * NODE_WORDS] == 1 {
        return node * NODE_WORDS + 2;
    }
    node * NODE_WORDS + 1
}

// The number of constants among words.
fn count_constants(words: &[u32]) -> usize
    ensures { result ≡ length (constants_among words.now) }
{
    words.iter().filter(|w| **w < CONSTANTS).count()
}

// A question with the arities of the relations that its nodes name, so that each node's terms can be found. Two
// lifetimes: the terms are a part of the question, and may outlive the loan of the arities.
#[derive(Clone, Copy)]
pub struct Terms<'q, 'a> {
    pub query: &'q [u32],
    pub arities: &'a [u32; 8],
    ghost has_terms: { HasTerms arities.now query.now },
}

impl<'q> Terms<'q, '_> {
    // The number of the question's nodes.
    pub fn nodes(&self) -> usize
        ensures { result ≡ node_count self.now.query.now }
    {
        self.query.len() / NODE_WORDS
    }

    // The number of a node's terms.
    pub fn count(&self, node: usize) -> usize
        requires { node < node_count self.now.query.now }
        ensures { result ≡ term_count self.now.arities.now self.now.query.now node
            (kind_of (word_at self.now.query.now node 0)) }
    {
        match self.query[node * NODE_WORDS] {
            1 => self.arities[self.query[node * NODE_WORDS + 1] as usize] as usize,
            2 => 2,
            _ => 0,
        }
    }

    // A node's terms, as a part of the question.
    pub fn of(&self, node: usize) -> &'q [u32]
        requires { node < node_count self.now.query.now }
        ensures { result.now ≡ terms_of self.now.arities.now self.now.query.now node }
    {
        let start = terms_start(self.query, node);
        let end = start + self.count(node);
        &self.query[start..end]
    }

    // The number of the inked terms, each occurrence of one.
    pub fn count_named(&self) -> usize
        ensures { result ≡ length (named_in self.now.arities.now self.now.query.now) }
    {
        let mut count = 0;
        for node in 0..self.nodes() {
            count += count_constants(self.of(node));
        }
        count
    }
}
