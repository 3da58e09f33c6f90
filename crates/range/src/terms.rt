// Passing over each word of the question that is no inked term, and each inked term that stood earlier, in the instance
// or in the question.
ghost use Rattle.std.specs.Prelude.{◌≡◌, false, ◌&&◌, not, ◌++◌, ℕ, ◌+◌, ◌-◌, ◌≤◌, ◌<◌, length, take, drop, get_or};
ghost use Rattle.calculus.specs.Cell.{is_constant};
ghost use Rattle.calculus.specs.Listed.{listed};
ghost use Rattle.instance.specs.InstanceWellFormed.{InstanceOf};
ghost use Rattle.instance.specs.Rows.{rows_from};
ghost use Rattle.known.specs.Known.{max_query_words, arities_in, flag_at, unpassed, SameBesides};
ghost use Rattle.query.specs.Words.{node_words};
ghost use Rattle.query.specs.Named.{constants_among, named_in};
ghost use Rattle.range.specs.Flagged.{stood_before, Asking, Passed};
ghost use Rattle.range.specs.Walked.{walked_range};

use super::pass::{pass_cells, stood, stood_earlier};
use calculus::cell::CONSTANTS;
use domain::bucket::bucket_of;
use known::Known;
use query::inked::{Terms, terms_start};
use query::words::NODE_WORDS;

// A question's words, those of the instance before them, and the heads of the instance's cells. What is known is no
// field, and the fact `Asking` no ghost field: the flags differ at each call.
#[derive(Clone, Copy)]
struct Asked<'a> {
    words: &'a [u32],
    terms: &'a Terms<'a, 'a>,
    heads: &'a [u16; 512],
}

impl Asked<'_> {
    // Whether a word of the question is an inked term that stood neither in the instance nor earlier in the question.
    fn is_new(&self, known: &Known, place: usize, term: bool) -> bool
        requires { Asking self.now.words.now self.now.terms.now.query.now known.now self.now.heads.now
            × (place < length self.now.terms.now.query.now) }
        ensures { result ≡ (term && (is_constant (get_or self.now.terms.now.query.now place 0)
            && not (listed (get_or self.now.terms.now.query.now place 0) (stood_before known.now
            (self.now.words.now ++ self.now.terms.now.query.now) (length self.now.words.now + place))))) }
    {
        let query = self.terms.query;
        if !term || CONSTANTS <= query[place] {
            return false;
        }
        let w = query[place];
        let head = usize::from(self.heads[bucket_of(w) / 2]);
        if stood_earlier(self.words, known, self.words.len(), w, head) {
            return false;
        }
        !stood(known, self.words.len(), &query[..place], w)
    }

    // Passes over the words of a node, from word `first` of the question, except each new inked term; the terms are the
    // words from `start` on and before `end`.
    fn pass_node(&self, known: &mut Known, first: usize, start: usize, end: usize)
        requires asking { Asking self.now.words.now self.now.terms.now.query.now known.old self.now.heads.now
            × ((q : ℕ) → length self.now.words.now + first ≤ q → flag_at known.old q ≡ false) }
        requires first_le_start { (first ≤ start) × (start ≤ end) × (end ≤ first + node_words)
            × (first + node_words ≤ length self.now.terms.now.query.now) }
        ensures { Passed self.now.words.now self.now.terms.now.query.now known.old first
            (constants_among (take (end - start) (drop start self.now.terms.now.query.now))) known.new
            (first + node_words) }
    {
        for place in first..first + NODE_WORDS {
            let term = (start..end).contains(&place);
            if !self.is_new(known, place, term) {
                known.pass(self.words.len() + place);
            }
        }
    }

    // Passes over the question's words, except each new inked term.
    fn pass_terms(&self, known: &mut Known)
        requires { Asking self.now.words.now self.now.terms.now.query.now known.old self.now.heads.now
            × ((q : ℕ) → length self.now.words.now ≤ q → flag_at known.old q ≡ false) }
        ensures { Passed self.now.words.now self.now.terms.now.query.now known.old 0
            (named_in self.now.terms.now.arities.now self.now.terms.now.query.now) known.new
            (length self.now.terms.now.query.now) }
    {
        for node in 0..self.terms.nodes() {
            let start = terms_start(self.terms.query, node);
            let end = start + self.terms.count(node);
            self.pass_node(known, node * NODE_WORDS, start, end);
        }
    }
}

// Sets the flag of each place that a walk over the instance's words and then the question's passes over. The promise
// speaks of the values that are left and their order, not of which place of equal ones is left.
pub fn pass_over(words: &[u32], terms: &Terms, known: &mut Known)
    requires instance_of { InstanceOf (arities_in known.old) words.now
        × (arities_in known.old ≡ terms.now.arities.now) × (length terms.now.query.now ≤ max_query_words) }
    requires no_flags { (p : ℕ) → flag_at known.old p ≡ false }
    ensures kept { SameBesides known.old known.new }
    ensures walked { unpassed known.new 0 (words.now ++ terms.now.query.now)
        ≡ walked_range (named_in terms.now.arities.now terms.now.query.now)
        (rows_from terms.now.arities.now 0 words.now) }
{
    let mut heads = [0u16; 512];
    pass_cells(words, known, &mut heads);
    let asked = Asked {
        words,
        terms,
        heads: &heads,
    };
    asked.pass_terms(known);
}
