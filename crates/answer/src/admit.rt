// The tests before a question is answered, by either way of asking.
ghost use Rattle.std.specs.Prelude.{◌≡◌};
ghost use Rattle.answer.specs.Ask.{admitted};

use calculus::answer::Answer;
use calculus::refusal::Refusal;
use instance::header::Header;
use instance::scan::scan;
use query::check::check;
use query::words::right_length;

// The first refusal that does not depend on what is lent; the number of rows if there is none.
pub fn admit(header: Header, instance: &[u32], query: &[u32], candidate: &[u32]) -> Answer
    ensures { result ≡ admitted header instance.now query.now candidate.now }
{
    let rows = scan(header, instance)?;
    if !right_length(query) {
        return Err(Refusal::BadQueryLength);
    }
    check(&header, query, candidate)?;
    Ok(rows)
}
