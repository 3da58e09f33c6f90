// The fills of a run, each made in the instance and in the candidate.
ghost use Rattle.std.specs.Prelude.{◌≡◌, ℕ, ◌≤◌, ◌++◌, Ok, length, drop};
ghost use Rattle.calculus.specs.Model.{after_fills};
ghost use Rattle.instance.specs.Header.{max_words};
ghost use Rattle.instance.specs.Run.{fill_answer, fill_words};
ghost use Rattle.instance.specs.Sound.{rows};
ghost use Rattle.rerun.specs.Fills.{wanted, wanted_of, fed, log_left, used_left, filled_with};
ghost use Rattle.rerun.specs.Fills.{fill_told, fill_leaves, answer_words, fills_told, stored};

use calculus::answer::Answer;
use instance::header::Header;
use substitute::{replace, substitute};
use substitute_logged::substitute_logged;

// A fill that is wanted: a null's number, a cell, and whether it is logged. A flag and no closure: a word of the
// fills asks for it. The plot and the log are no part of it, and no struct: they are taken as other calls take them.
#[derive(Clone, Copy)]
pub struct Wanted {
    pub mark: u32,
    pub cell: u32,
    pub logs: bool,
}

impl Wanted {
    // The fill that three words ask for: the third is 0 for one that is not logged.
    fn of(mark: u32, cell: u32, logs: u32) -> Wanted
        ensures { result ≡ wanted mark cell logs }
    {
        Wanted {
            mark,
            cell,
            logs: 0 < logs,
        }
    }
}

// A fill of the instance, logged or not.
#[tactic(auto, unfolding(undo_log::specs::Log::logged_log, undo_log::specs::Log::logged_used))]
fn fill_instance(
    header: Header,
    instance: &mut [u32],
    log: &mut [u32],
    used: &mut usize,
    fill: Wanted,
) -> Answer
    ensures answer { result ≡ fill_answer header (fed fill log.old used.old) instance.old }
    ensures words { instance.new ≡ fill_words header (fed fill log.old used.old) instance.old }
    ensures log { log.new ≡ log_left fill (fill_answer header (fed fill log.old used.old) instance.old)
        (rows header instance.old) log.old used.old }
    ensures used { used.new ≡ used_left fill (fill_answer header (fed fill log.old used.old) instance.old)
        (rows header instance.old) used.old }
{
    if fill.logs {
        substitute_logged(header, instance, log, used, fill.mark, fill.cell)
    } else {
        substitute(header, instance, fill.mark, fill.cell)
    }
}

// "each accepted one is made in the candidate too"
fn fill(
    header: Header,
    instance: &mut [u32],
    candidate: &mut [u32],
    log: &mut [u32],
    used: &mut usize,
    fill: Wanted,
) -> Answer
    requires { length candidate.old ≤ max_words }
    ensures answer { result ≡ fill_told header fill (filled_with instance.old candidate.old log.old used.old) }
    ensures left { filled_with instance.new candidate.new log.new used.new
        ≡ fill_leaves header fill (filled_with instance.old candidate.old log.old used.old) }
    ensures few { (k : ℕ) → result ≡ Ok k → k ≤ max_words }
{
    let count = fill_instance(header, instance, log, used, fill)?;
    replace(candidate, fill.mark, fill.cell);
    Ok(count)
}

// Writes the answer of a fill to the first three words of a slice.
fn store(answers: &mut [u32], answer: Answer, fill: Wanted)
    requires { (3 ≤ length answers.old) × ((k : ℕ) → answer ≡ Ok k → k ≤ max_words) }
    ensures { answers.new ≡ answer_words fill answer ++ drop 3 answers.old }
{
    let words = match answer {
        Ok(count) => [0, count, if fill.logs { 2 + count } else { 0 }],
        Err(why) => [u32::from(why), 0, 0],
    };
    answers[..3].copy_from_slice(&words);
}

// Makes the fills one by one; each gets the instance, the candidate and the log as the last one left them.
pub fn fill_all(
    header: Header,
    instance: &mut [u32],
    candidate: &mut [u32],
    log: &mut [u32],
    used: &mut usize,
    fills: &[u32],
    answers: &mut [u32],
)
    requires { (length candidate.old ≤ max_words) × (length fills.now ≤ length answers.old) }
    ensures left { filled_with instance.new candidate.new log.new used.new
        ≡ after_fills (fill_leaves header) (wanted_of fills.now)
        (filled_with instance.old candidate.old log.old used.old) }
    ensures answers { answers.new ≡ stored (fills_told header (wanted_of fills.now)
        (filled_with instance.old candidate.old log.old used.old)) answers.old }
{
    // By number: a fill and its answer are cut at the same index, and the slice for the answers may be longer.
    for k in 0..fills.len() / 3 {
        let i = 3 * k;
        let next = Wanted::of(fills[i], fills[i + 1], fills[i + 2]);
        let answer = fill(header, instance, candidate, log, used, next);
        store(&mut answers[i..], answer, next);
    }
}
