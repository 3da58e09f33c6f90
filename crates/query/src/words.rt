// A question's words: up to 100 nodes of 8 words each. They stay the words that C lends, with children by number: there
// is no heap to build a tree of them.
ghost use Rattle.std.specs.Prelude.{◌≡◌, ◌+◌, ◌*◌, ◌≤◌, ◌<◌, length, take, drop};
ghost use Rattle.query.specs.Words.{node_words, max_nodes, node_count, right_length, word_at};
ghost use Rattle.query.specs.Check.{rest_is_zero};

pub const NODE_WORDS: usize = 8;

const QUERY_WORDS: usize = 800;

// a term that is not a constant is this number plus the number of a variable
pub const VARIABLE_BASE: u32 = 2_000_000;

pub const VARIABLES: u32 = 16;

// The opposite of refusal 21.
#[tactic(auto, unfolding(crate::specs::Words::right_length))]
pub fn right_length(query: &[u32]) -> bool
    ensures { result ≡ right_length query.now }
{
    NODE_WORDS <= query.len() && query.len() <= QUERY_WORDS && query.len() % NODE_WORDS == 0
}

// One node of a question of at most 100 nodes, which the check alone asks for, so that other readers of a node's words
// stay as they are. A scope's mask is no field: a quantifier's child gets another one.
#[derive(Clone, Copy)]
pub(crate) struct Node<'a> {
    pub(crate) query: &'a [u32],
    pub(crate) number: usize,
    ghost whole: { number * node_words + node_words ≤ length query.now },
    ghost few: { node_count query.now ≤ max_nodes },
}

impl<'a> Node<'a> {
    // Word j of the node.
    pub(crate) fn word(&self, j: usize) -> u32
        requires { j < node_words }
        ensures { result ≡ word_at self.now.query.now self.now.number j }
    {
        self.query[self.number * NODE_WORDS + j]
    }

    // The `count` words of the node from word `from`.
    pub(crate) fn words(&self, from: usize, count: usize) -> &'a [u32]
        requires { from + count ≤ node_words }
        ensures { result.now ≡ take count (drop (self.now.number * node_words + from) self.now.query.now) }
    {
        let start = self.number * NODE_WORDS + from;
        &self.query[start..start + count]
    }

    // Whether all words of the node after its first `from` are 0.
    pub(crate) fn rest_is_zero(&self, from: usize) -> bool
        requires { from ≤ node_words }
        ensures { result ≡ rest_is_zero self.now.query.now self.now.number from }
    {
        self.words(from, NODE_WORDS - from).iter().all(|w| *w == 0)
    }

    // The number of the question's nodes.
    pub(crate) fn count(&self) -> usize
        ensures { result ≡ node_count self.now.query.now }
    {
        self.query.len() / NODE_WORDS
    }
}
