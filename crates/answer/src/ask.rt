// Asking a question of an instance, with a list for what quantifiers range over.
ghost use Rattle.std.specs.Prelude.{◌≡◌, ℕ};
ghost use Rattle.calculus.specs.Domain.{range_over};
ghost use Rattle.calculus.specs.Model.{outcome_of};
ghost use Rattle.instance.specs.Run.{model_of};
ghost use Rattle.instance.specs.Sound.{rows};
ghost use Rattle.evaluate.specs.Within.{within};
ghost use Rattle.query.specs.Named.{named_in, query_of};
ghost use Rattle.answer.specs.Ask.{ask as askOf, asked_buffer, evaluated_as, list};
ghost use Rattle.answer.specs.Admitted.{Admitted};
ghost use Rattle.answer.specs.Numbers.{TellsVerdict};

use super::admit::admit;
use super::asked::Asked;
use super::top::answer_top;
use calculus::refusal::Refusal;
use domain::list_range;
use evaluate::nodes::Asking;
use instance::header::Header;
use known::Known;
use query::inked::Terms;

// Answers by the list of the range. What is known is a local of this function, so that it can take the place on the
// stack that the listing has left.
fn answer_listed(
    header: Header,
    instance: &[u32],
    query: &[u32],
    values: &[u32],
    candidate: &[u32],
    budget: u32,
) -> Asked
    requires by_index { (count : ℕ) × Admitted header instance.now query.now candidate.now count }
    requires values_value { values.now ≡ range_over (named_in header.arities query.now) (rows header instance.now) }
    ensures { result ≡ evaluated_as (within budget
        (outcome_of (model_of header instance.now candidate.now)
        (query_of header.arities query.now))) }
{
    let used = header.used as usize;
    let known = Known::new(&header.counts, &header.arities, values.len());
    let asking = Asking {
        query,
        values,
        words: &instance[..used],
        known: &known,
    };
    answer_top(&asking, candidate, budget)
}

// Beside `ask_unlisted`, and not one function with it: both are public calls, which C has as two.
pub fn ask(
    header: Header,
    instance: &[u32],
    query: &[u32],
    candidate: &[u32],
    buffer: &mut [u32],
    budget: u32,
) -> Asked
    ensures answer { result ≡ askOf header instance.now query.now candidate.now (list buffer.old) budget }
    ensures buffer { buffer.new ≡ asked_buffer header instance.now query.now candidate.now buffer.old }
    ensures told { TellsVerdict result (askOf header instance.now query.now
        candidate.now (list buffer.old) budget)
        (outcome_of (model_of header instance.now candidate.now)
        (query_of header.arities query.now)) }
{
    let rows = admit(header, instance, query, candidate)?;
    let used = header.used as usize;
    let cells = used - rows as usize;
    let terms = Terms {
        query,
        arities: &header.arities,
    };
    if buffer.len() < cells + terms.count_named() {
        return Err(Refusal::BufferTooShort);
    }
    let n = list_range(&instance[..used], &terms, buffer);
    answer_listed(header, instance, query, &buffer[..n], candidate, budget)
}
