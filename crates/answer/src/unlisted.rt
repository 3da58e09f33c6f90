// Asking a question of an instance with no list: the quantifiers walk the instance's own words, and then the
// question's.
ghost use Rattle.std.specs.Prelude.{◌≡◌, true, false, ◌++◌, ℕ, ◌*◌, ◌≤◌, length};
ghost use Rattle.calculus.specs.Model.{outcome_of};
ghost use Rattle.instance.specs.InstanceWellFormed.{InstanceOf};
ghost use Rattle.instance.specs.Run.{model_of};
ghost use Rattle.known.specs.Known.{max_query_words, arities_in, flag_at, unpassed, SameBesides};
ghost use Rattle.query.specs.Words.{node_count, node_words};
ghost use Rattle.query.specs.Named.{named_in, query_of};
ghost use Rattle.instance.specs.Rows.{rows_from};
ghost use Rattle.range.specs.Walked.{walked_range};
ghost use Rattle.answer.specs.Ask.{ask, none};
ghost use Rattle.answer.specs.Numbers.{TellsVerdict};
ghost use Rattle.answer.specs.Ranging.{ranges_among};

use super::admit::admit;
use super::asked::Asked;
use super::top::answer_top;
use evaluate::nodes::Asking;
use instance::header::Header;
use known::Known;
use query::inked::Terms;
use query::words::NODE_WORDS;
use range::terms::pass_over;

// The kinds of the two quantifiers, as numbers: C writes them so in the question's words.
const SOME: u32 = 6;

const EVERY: u32 = 7;

// Whether a node ranges over values.
fn ranging(query: &[u32]) -> bool
    requires { node_count query.now * node_words ≡ length query.now }
    ensures { result ≡ ranges_among query.now (node_count query.now) }
{
    // By number: only the first word of each node is read.
    for node in 0..query.len() / NODE_WORDS {
        let kind = query[node * NODE_WORDS];
        if kind == SOME || kind == EVERY {
            return true;
        }
    }
    false
}

// Sets the flag of each place that a walk over the range passes over, if a node ranges over values.
fn pass_for(words: &[u32], terms: &Terms, known: &mut Known)
    requires instance_of { InstanceOf (arities_in known.old) words.now
        × (arities_in known.old ≡ terms.now.arities.now) × (length terms.now.query.now ≤ max_query_words) }
    requires no_flags { (p : ℕ) → flag_at known.old p ≡ false }
    ensures kept { SameBesides known.old known.new }
    ensures walked { ranges_among terms.now.query.now (node_count terms.now.query.now) ≡ true
        → unpassed known.new 0 (words.now ++ terms.now.query.now)
        ≡ walked_range (named_in terms.now.arities.now terms.now.query.now)
        (rows_from terms.now.arities.now 0 words.now) }
{
    if ranging(terms.query) {
        pass_over(words, terms, known);
    }
}

// Beside `ask`, and not one function with it: both are public calls, which C has as two.
pub fn ask_unlisted(
    header: Header,
    instance: &[u32],
    query: &[u32],
    candidate: &[u32],
    budget: u32,
) -> Asked
    ensures answer { result ≡ ask header instance.now query.now candidate.now none budget }
    ensures told { TellsVerdict result (ask header instance.now query.now
        candidate.now none budget)
        (outcome_of (model_of header instance.now candidate.now)
        (query_of header.arities query.now)) }
{
    admit(header, instance, query, candidate)?;
    let used = header.used as usize;
    let words = &instance[..used];
    let mut known = Known::new(&header.counts, &header.arities, used + query.len());
    let terms = Terms {
        query,
        arities: &header.arities,
    };
    pass_for(words, &terms, &mut known);
    let asking = Asking {
        query,
        values: words,
        words,
        known: &known,
    };
    answer_top(&asking, candidate, budget)
}
