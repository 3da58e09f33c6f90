// A fill that is logged (noted): an entry after the log's words in use says which cells held the null.

#![tactic(auto)]

ghost use Rattle.std.specs.Prelude.{◌≡◌, ◌≤◌, [], ◌∷◌, ◌++◌, map, length};
ghost use Rattle.calculus.specs.Answer.{Tells};
ghost use Rattle.calculus.specs.Cell.{null, nulls, put};
ghost use Rattle.calculus.specs.Fill.{count_of, entry_length, held};
ghost use Rattle.calculus.specs.Overwrite.{overwrite};
ghost use Rattle.instance.specs.Header.{max_words};
ghost use Rattle.instance.specs.Sound.{rows};
ghost use Rattle.undo_log.specs.Places.{places_in};
ghost use Rattle.undo_log.specs.Log.{logged, logged_words, logged_log, logged_used};

use calculus::answer::Answer;
use calculus::cell::CONSTANTS;
use calculus::refusal::Refusal;
use instance::header::Header;
use substitute::test_fill;

// How often a null occurs in words. A relation's number is below every null, so the pass need not tell relation numbers
// from cells.
fn held(words: &[u32], mark: u32) -> u32
    requires { (mark ≤ nulls) × (length words.now ≤ max_words) }
    ensures { result ≡ count_of (null mark) words.now }
{
    let null = CONSTANTS + mark;
    let mut count = 0;
    // A `for`: counting a filter is not vectorized, and a logged fill takes up to 1.7 times as long.
    for word in words {
        if *word == null {
            count += 1;
        }
    }
    count
}

// Fills, and writes the entry at the start of a part of the log: each place as it is filled, then the mark and the
// number of places.
fn note(words: &mut [u32], part: &mut [u32], mark: u32, cell: u32)
    requires { (mark ≤ nulls) × (length words.old ≤ max_words)
        × (entry_length (count_of (null mark) words.old) ≤ length part.old) }
    ensures words { words.new ≡ map (put mark cell) words.old }
    ensures part { part.new ≡ overwrite
        (places_in (null mark) 0 words.old ++ mark ∷ count_of (null mark) words.old ∷ []) part.old }
{
    let null = CONSTANTS + mark;
    let mut count = 0;
    for (i, word) in words.iter_mut().enumerate() {
        if *word == null {
            *word = cell;
            part[count] = i as u32;
            count += 1;
        }
    }
    part[count] = mark;
    part[count + 1] = count as u32;
}

// A fill with a log, of which the first `used` words are in use. The null's cells are counted before any is filled,
// since a log without room for their entry refuses the fill.
pub fn substitute_logged(
    header: Header,
    instance: &mut [u32],
    log: &mut [u32],
    used: &mut usize,
    mark: u32,
    cell: u32,
) -> Answer
    ensures answer { result ≡ logged header instance.old log.old used.old mark cell }
    ensures words { instance.new ≡ logged_words header instance.old log.old used.old mark cell }
    ensures log { log.new ≡ logged_log header instance.old log.old used.old mark cell }
    ensures used { used.new ≡ logged_used header instance.old log.old used.old mark cell }
    ensures told { Tells result (logged header instance.old log.old used.old mark cell)
        (held mark (rows header instance.old)) }
{
    test_fill(header, instance, mark, cell)?;
    let end = header.used as usize;
    let count = held(&instance[..end], mark);
    if count == 0 {
        return Err(Refusal::NullAbsent);
    }
    let entry = 2 + count as usize;
    // Two tests and no sum: `used` may be any number, and the sum may not fit.
    if log.len() < *used {
        return Err(Refusal::LogTooShort);
    }
    if log.len() - *used < entry {
        return Err(Refusal::LogTooShort);
    }
    note(&mut instance[..end], &mut log[*used..], mark, cell);
    *used += entry;
    Ok(count)
}
