// Run A, a list of fills and run B.
ghost use Rattle.rerun.specs.Rerun.{given, Reruns};

use super::fills::fill_all;
use super::reran::Reran;
use answer::way::{Way, ask_by};
use calculus::refusal::Refusal;
use instance::header::Header;

// Three words of `fills` are a fill: a null's number, a cell, and 0 if it is not logged; its answer goes to the same
// indices of `answers`. `used` are the log's words in use. Both runs ask by the same way; run B has a buffer and a
// budget of its own. No fill is made if run A is refused.
pub fn rerun(
    way: Way,
    header: Header,
    instance: &mut [u32],
    query: &[u32],
    candidate: &mut [u32],
    buffer: &mut [u32],
    budget: u32,
    fills: &[u32],
    answers: &mut [u32],
    log: &mut [u32],
    used: &mut usize,
    buffer2: &mut [u32],
    budget2: u32,
) -> Result<Reran, Refusal>
    ensures { Reruns (given way header query.now candidate.old buffer.old budget fills.now answers.old log.old
        used.old buffer2.old budget2) instance.old result instance.new candidate.new buffer.new answers.new log.new
        used.new buffer2.new }
{
    if answers.len() < fills.len() {
        return Err(Refusal::OutputTooShort);
    }
    let first = ask_by(way, header, instance, query, candidate, buffer, budget)?;
    fill_all(header, instance, candidate, log, used, fills, answers);
    let second = ask_by(way, header, instance, query, candidate, buffer2, budget2);
    Ok(Reran { first, second })
}
