// The calls for a host in C, on numbers and slices: each returns 0 if it is accepted, otherwise the number of the
// refusal. C has no `Result`: a function that gave the header or 41 would be matched in each call, and be no plainer
// than the test of the slice's length that stands there.

#![tactic(auto)]

ghost use Rattle.std.specs.Prelude.{◌≡◌};
ghost use Rattle.calculus.specs.Answer.{number_of, value_of};
ghost use Rattle.answer.specs.Ask.{list, none};
ghost use Rattle.answer.specs.Numbers.{asked_number, verdict_of, cost_of};
ghost use Rattle.exports.specs.Calls.{decode_answer, decode_header, decode_words, decode_used};
ghost use Rattle.exports.specs.Calls.{insert_answer, insert_header, insert_words};
ghost use Rattle.exports.specs.Calls.{substitute_answer, substitute_words, counts_answer};
ghost use Rattle.exports.specs.Calls.{counts_words, encode_answer, encode_bytes};
ghost use Rattle.exports.specs.Calls.{log_answer, log_words, log_log, log_used, undo_answer, undo_words, undo_used};
ghost use Rattle.exports.specs.Calls.{ask_answer, ask_buffer};

mod words;

use answer::unlisted::ask_unlisted;
use calculus::refusal::Refusal;
use words::{HEADER, number, read_header, tell, tell_verdict, write_header};

// Reads a card, and starts the log fresh: used gets the words in use of a fresh log.
#[unsafe(no_mangle)]
pub extern "C" fn plotask_decode(
    card: &[u8],
    header: &mut [u32],
    instance: &mut [u32],
    used: &mut usize,
) -> u32
    ensures number { result ≡ number_of (decode_answer card.now header.old instance.old) }
    ensures header { header.new ≡ decode_header card.now header.old instance.old }
    ensures words { instance.new ≡ decode_words card.now header.old instance.old }
    ensures used { used.new ≡ decode_used card.now header.old instance.old used.old }
{
    if header.len() != HEADER {
        return u32::from(Refusal::Unsound);
    }
    match decode::decode(card, instance) {
        Ok(restarted) => {
            write_header(header, &restarted.header);
            *used = restarted.log;
            0
        }
        Err(why) => u32::from(why),
    }
}

// Enters a row.
#[unsafe(no_mangle)]
pub extern "C" fn plotask_insert(
    header: &mut [u32],
    instance: &mut [u32],
    relation: u32,
    cells: &[u32],
) -> u32
    ensures number { result ≡ number_of (insert_answer header.old instance.old relation cells.now) }
    ensures header { header.new ≡ insert_header header.old instance.old relation cells.now }
    ensures words { instance.new ≡ insert_words header.old instance.old relation cells.now }
{
    if header.len() != HEADER {
        return u32::from(Refusal::Unsound);
    }
    let mut grown = read_header(header);
    let answer = insert::insert(&mut grown, instance, relation, cells);
    if answer.is_ok() {
        write_header(header, &grown);
    }
    number(answer)
}

// Makes a fill; count gets the number of cells that held the mark.
#[unsafe(no_mangle)]
pub extern "C" fn plotask_substitute(
    header: &[u32],
    instance: &mut [u32],
    mark: u32,
    cell: u32,
    count: &mut u32,
) -> u32
    ensures number { result ≡ number_of (substitute_answer header.now instance.old mark cell) }
    ensures words { instance.new ≡ substitute_words header.now instance.old mark cell }
    ensures count { count.new ≡ value_of (substitute_answer header.now instance.old mark cell) count.old }
{
    if header.len() != HEADER {
        return u32::from(Refusal::Unsound);
    }
    let answer = substitute::substitute(read_header(header), instance, mark, cell);
    tell(answer, count)
}

// Makes a fill that is logged: used is the log's words in use, before and after; count gets the number of cells that
// held the mark.
#[unsafe(no_mangle)]
pub extern "C" fn plotask_substitute_logged(
    header: &[u32],
    instance: &mut [u32],
    log: &mut [u32],
    used: &mut usize,
    mark: u32,
    cell: u32,
    count: &mut u32,
) -> u32
    ensures number { result ≡ number_of (log_answer header.now instance.old log.old used.old mark cell) }
    ensures words { instance.new ≡ log_words header.now instance.old log.old used.old mark cell }
    ensures log { log.new ≡ log_log header.now instance.old log.old used.old mark cell }
    ensures used { used.new ≡ log_used header.now instance.old log.old used.old mark cell }
    ensures count { count.new ≡ value_of (log_answer header.now instance.old log.old used.old mark cell) count.old }
{
    if header.len() != HEADER {
        return u32::from(Refusal::Unsound);
    }
    let head = read_header(header);
    let answer = substitute_logged::substitute_logged(head, instance, log, used, mark, cell);
    tell(answer, count)
}

// Takes the latest logged fill back: used is the log's words in use, before and after; count gets the number of cells
// that the mark returns to.
#[unsafe(no_mangle)]
pub extern "C" fn plotask_undo(
    header: &[u32],
    instance: &mut [u32],
    log: &[u32],
    used: &mut usize,
    count: &mut u32,
) -> u32
    ensures number { result ≡ number_of (undo_answer header.now instance.old log.now used.old) }
    ensures words { instance.new ≡ undo_words header.now instance.old log.now used.old }
    ensures used { used.new ≡ undo_used header.now instance.old log.now used.old }
    ensures count { count.new ≡ value_of (undo_answer header.now instance.old log.now used.old) count.old }
{
    if header.len() != HEADER {
        return u32::from(Refusal::Unsound);
    }
    let answer = undo::undo(read_header(header), instance, log, used);
    tell(answer, count)
}

// Takes a census; count gets 200.
#[unsafe(no_mangle)]
pub extern "C" fn plotask_null_counts(
    header: &[u32],
    instance: &[u32],
    counts: &mut [u32],
    count: &mut u32,
) -> u32
    ensures number { result ≡ number_of (counts_answer header.now instance.now counts.old) }
    ensures words { counts.new ≡ counts_words header.now instance.now counts.old }
    ensures count { count.new ≡ value_of (counts_answer header.now instance.now counts.old) count.old }
{
    if header.len() != HEADER {
        return u32::from(Refusal::Unsound);
    }
    let answer = null_counts::null_counts(read_header(header), instance, counts);
    tell(answer, count)
}

// Writes a card; count gets the number of its bytes.
#[unsafe(no_mangle)]
pub extern "C" fn plotask_encode(
    header: &[u32],
    instance: &[u32],
    card: &mut [u8],
    count: &mut u32,
) -> u32
    ensures number { result ≡ number_of (encode_answer header.now instance.now card.old) }
    ensures bytes { card.new ≡ encode_bytes header.now instance.now card.old }
    ensures count { count.new ≡ value_of (encode_answer header.now instance.now card.old) count.old }
{
    if header.len() != HEADER {
        return u32::from(Refusal::Unsound);
    }
    let answer = encode::encode(read_header(header), instance, card);
    tell(answer, count)
}

// Asks a question; truth gets 0 for false, 1 for unknown or 2 for true, and cost gets the looks.
#[unsafe(no_mangle)]
pub extern "C" fn plotask_ask(
    header: &[u32],
    instance: &[u32],
    query: &[u32],
    candidate: &[u32],
    buffer: &mut [u32],
    budget: u32,
    truth: &mut u32,
    cost: &mut u32,
) -> u32
    ensures number { result ≡ asked_number (ask_answer header.now instance.now query.now candidate.now
        (list buffer.old) budget) }
    ensures buffer { buffer.new ≡ ask_buffer header.now instance.now query.now candidate.now buffer.old }
    ensures truth { truth.new ≡ verdict_of (ask_answer header.now instance.now query.now candidate.now
        (list buffer.old) budget) truth.old }
    ensures cost { cost.new ≡ cost_of (ask_answer header.now instance.now query.now candidate.now
        (list buffer.old) budget) cost.old }
{
    if header.len() != HEADER {
        return u32::from(Refusal::Unsound);
    }
    let asked = answer::ask::ask(
        read_header(header),
        instance,
        query,
        candidate,
        buffer,
        budget,
    );
    tell_verdict(asked, truth, cost)
}

// The same with no working list.
#[unsafe(no_mangle)]
pub extern "C" fn plotask_ask_unlisted(
    header: &[u32],
    instance: &[u32],
    query: &[u32],
    candidate: &[u32],
    budget: u32,
    truth: &mut u32,
    cost: &mut u32,
) -> u32
    ensures number { result ≡ asked_number (ask_answer header.now instance.now query.now candidate.now none budget) }
    ensures truth { truth.new ≡ verdict_of (ask_answer header.now instance.now query.now candidate.now none budget)
        truth.old }
    ensures cost { cost.new ≡ cost_of (ask_answer header.now instance.now query.now candidate.now none budget)
        cost.old }
{
    if header.len() != HEADER {
        return u32::from(Refusal::Unsound);
    }
    let asked = ask_unlisted(read_header(header), instance, query, candidate, budget);
    tell_verdict(asked, truth, cost)
}
