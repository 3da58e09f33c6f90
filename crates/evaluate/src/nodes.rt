// Evaluation of a question's nodes. The stack grows only with the question's depth, since the walk over values is a
// loop.
ghost use Rattle.std.specs.Prelude.{◌≡◌, ◌<◌, ◌+◌, ℕ, length, get_or, List, ◌++◌, true};
ghost use Rattle.calculus.specs.Eval.{Structure};
ghost use Rattle.query.specs.Words.{node_count, node_words, word_at, kind_of, row_stands};
ghost use Rattle.query.specs.Words.{equals, negates, joins, ranges};
ghost use Rattle.evaluate.specs.Ready.{RightIn};
ghost use Rattle.evaluate.specs.Asking.{ReadyIn, EvaluableIn, RightFor};
ghost use Rattle.evaluate.specs.Junction.{junction_of};
ghost use Rattle.calculus.specs.Closed.{equality as equalityOf};
ghost use Rattle.query.specs.Check.{is_term};

use super::evaluated::Evaluated;
use super::junction::Junction;
use super::terms::{asked_row, same, term};
use calculus::truth::not;
use known::Known;
use lookup::relation::stands;
use query::words::NODE_WORDS;

// A question, and what it is asked of. That they fit together is no ghost field, which has to be a proposition: `Ready`
// holds the number of relations.
#[derive(Clone, Copy)]
pub struct Asking<'a> {
    pub query: &'a [u32],
    // what a quantifier walks, and then the question's words
    pub values: &'a [u32],
    // the instance's words
    pub words: &'a [u32],
    pub known: &'a Known,
}

// A node, an assignment and a budget are no struct: each call has another node, and most another budget.
impl Asking<'_> {
    // Word j of a node.
    fn word(&self, node: usize, j: usize) -> usize
        requires { (node < node_count self.now.query.now) × (j < node_words) }
        ensures { result ≡ word_at self.now.query.now node j }
    {
        self.query[node * NODE_WORDS + j] as usize
    }

    // The word at a place of the values, or of the question's words after them.
    fn value_at(&self, place: usize) -> u32
        requires { place < length self.now.values.now + length self.now.query.now }
        ensures { result ≡ get_or (self.now.values.now ++ self.now.query.now) place 0 }
    {
        if place < self.values.len() {
            return self.values[place];
        }
        self.query[place - self.values.len()]
    }

    // Evaluates an atom. No more rows are examined than the budget covers besides the atom itself.
    fn atom(&self, node: usize, env: &[u32; 16], budget: u32) -> Evaluated
        requires ready { ReadyIn self.now × (node < node_count self.now.query.now) }
        requires node_value { kind_of (word_at self.now.query.now node 0) ≡ row_stands }
        ensures right { RightFor self.now node env.now budget result }
    {
        if budget == 0 {
            return Evaluated::Spent;
        }
        let covered = budget - 1;
        let relation = self.word(node, 1);
        let rows = self.known.count(relation);
        let arity = self.known.arity(relation);
        let row = asked_row(self.query, node, arity, env);
        if covered < rows {
            let front = stands(self.words, self.known, relation as u32, covered, &row);
            let cost = 1 + front.rows;
            // The budget covers no other row, so only an identical one gives a verdict.
            if Junction::Or.settles(front.truth) {
                return Evaluated::Verdict(front.truth, cost);
            }
            return Evaluated::Spent;
        }
        let all = stands(self.words, self.known, relation as u32, rows, &row);
        let cost = 1 + all.rows;
        Evaluated::Verdict(all.truth, cost)
    }

    // Evaluates an equality.
    fn equality(&self, node: usize, env: &[u32; 16], budget: u32) -> Evaluated
        requires node_bound { node < node_count self.now.query.now }
        requires node_value { (is_term (word_at self.now.query.now node 1) ≡ true)
            × (is_term (word_at self.now.query.now node 2) ≡ true) }
        requires node_value_2 { kind_of (word_at self.now.query.now node 0) ≡ equals }
        ensures right { (S : Structure) (ars : List ℕ) → S.equals ≡ equalityOf
            → RightIn S ars self.now.query.now node env.now budget result }
    {
        if budget < 1 {
            return Evaluated::Spent;
        }
        let a = term(self.query, node, 1, env);
        let b = term(self.query, node, 2, env);
        Evaluated::Verdict(same(a, b), 1)
    }

    #[cycle(evaluation)]
    fn negated(&self, node: usize, env: &mut [u32; 16], budget: u32) -> Evaluated
        requires evaluable { EvaluableIn self.now node }
        requires node_value { kind_of (word_at self.now.query.now node 0) ≡ negates }
        ensures kept { env.new ≡ env.old }
        ensures right { RightFor self.now node env.old budget result }
    {
        let child = self.word(node, 1);
        let Evaluated::Verdict(truth, cost) = self.evaluate(child, env, budget) else {
            return Evaluated::Spent;
        };
        Evaluated::Verdict(not(truth), cost)
    }

    #[cycle(evaluation)]
    fn both(&self, node: usize, junction: Junction, env: &mut [u32; 16], budget: u32) -> Evaluated
        requires evaluable { EvaluableIn self.now node }
        requires node_value { kind_of (word_at self.now.query.now node 0) ≡ joins (junction_of junction) }
        ensures kept { env.new ≡ env.old }
        ensures right { RightFor self.now node env.old budget result }
    {
        let left = self.word(node, 1);
        let right = self.word(node, 2);
        let Evaluated::Verdict(a, paid) = self.evaluate(left, env, budget) else {
            return Evaluated::Spent;
        };
        if junction.settles(a) {
            return Evaluated::Verdict(a, paid);
        }
        let Evaluated::Verdict(b, more) = self.evaluate(right, env, budget - paid) else {
            return Evaluated::Spent;
        };
        let truth = junction.join(a, b);
        let cost = paid + more;
        Evaluated::Verdict(truth, cost)
    }

    // As a function of its own it takes half as long again (`make builds`, the nested quantifiers).
    #[cycle(evaluation)]
    #[inline(always)]
    fn walk(&self, node: usize, junction: Junction, env: &mut [u32; 16], budget: u32) -> Evaluated
        requires evaluable { EvaluableIn self.now node }
        requires node_value { kind_of (word_at self.now.query.now node 0) ≡ ranges (junction_of junction) }
        ensures kept { env.new ≡ env.old }
        ensures right { RightFor self.now node env.old budget result }
    {
        let variable = self.word(node, 1);
        let old = env[variable];
        let mut truth = junction.unit();
        let mut cost = 0;
        let mut i = 0;
        // A `while`: the step over a gap is its length, which no range has.
        while i < self.known.places() {
            if self.known.passed(i) {
                i += self.known.gap(i);
            } else {
                env[variable] = self.value_at(i);
                let Evaluated::Verdict(one, paid) = self.evaluate(
                    self.word(node, 2),
                    env,
                    budget - cost,
                ) else {
                    env[variable] = old;
                    return Evaluated::Spent;
                };
                cost += paid;
                truth = junction.join(truth, one);
                if junction.settles(one) {
                    env[variable] = old;
                    return Evaluated::Verdict(truth, cost);
                }
                i += 1;
            }
        }
        env[variable] = old;
        Evaluated::Verdict(truth, cost)
    }

    #[cycle(evaluation)]
    pub fn evaluate(&self, node: usize, env: &mut [u32; 16], budget: u32) -> Evaluated
        requires { EvaluableIn self.now node }
        ensures kept { env.new ≡ env.old }
        ensures right { RightFor self.now node env.old budget result }
    {
        // By number: the kinds are words that C writes, and the project names this `match`.
        let kind = self.word(node, 0);
        match kind {
            1 => self.atom(node, env, budget),
            2 => self.equality(node, env, budget),
            3 => self.negated(node, env, budget),
            4 => self.both(node, Junction::And, env, budget),
            5 => self.both(node, Junction::Or, env, budget),
            6 => self.walk(node, Junction::Or, env, budget),
            7 => self.walk(node, Junction::And, env, budget),
            // Never reached: the contract requires that every node has a kind from 1 to 7.
            _ => Evaluated::Spent,
        }
    }
}
