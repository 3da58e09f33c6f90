// Undo: takes the latest logged fill back.

#![tactic(auto)]

ghost use Rattle.std.specs.Prelude.{◌≡◌, true, ℕ, ◌≤◌, ◌<◌, length, get_or};
ghost use Rattle.calculus.specs.Answer.{Tells};
ghost use Rattle.instance.specs.InstanceWellFormed.{InstanceWellFormed};
ghost use Rattle.instance.specs.Rows.{rows_from};
ghost use Rattle.instance.specs.Sound.{sound};
ghost use Rattle.undo_log.specs.Places.{are_places, put_at};
ghost use Rattle.undo_log.specs.Log.{last_count, entry_well_formed, undone, undone_words, undone_used};
ghost use Rattle.undo.specs.RowStart.{RowStart, RowOf};

use calculus::answer::Answer;
use calculus::cell::{CONSTANTS, is_mark};
use calculus::refusal::Refusal;
use instance::header::Header;
use instance::scan::scan;

// The start of the row that has a place, by a walk from row to row; a row starts at `from`, at or before the place. The
// words and the arities are no struct: it would be made and taken apart in one call.
fn row_of(words: &[u32], arities: &[u32; 8], relations: u32, from: usize, place: usize) -> usize
    requires instance_well_formed { InstanceWellFormed relations arities.now words.now }
    requires row_start { RowStart relations arities.now words.now from }
    requires from_le_place { (from ≤ place) × (place < length words.now) }
    ensures { RowOf relations arities.now words.now place result }
{
    let mut row = from;
    // A `loop`: the step is the row's length. An iterator would keep the words and the arities beside the place, and
    // its law would be what this loop keeps, so it would be no plainer.
    loop {
        let relation = words[row] as usize;
        let next = row + (1 + arities[relation] as usize);
        if place < next {
            return row;
        }
        row = next;
    }
}

// Whether all numbers are places of cells. Each search starts at the row of the last place, so places that rise, as a
// logged fill writes them, take one pass; a place before that row is sought from the first row.
fn are_places(words: &[u32], arities: &[u32; 8], relations: u32, places: &[u32]) -> bool
    requires { InstanceWellFormed relations arities.now words.now }
    ensures { result ≡ are_places (rows_from arities.now 0 words.now) places.now }
{
    let mut row = 0;
    for &p in places {
        let place = p as usize;
        if words.len() <= place {
            return false;
        }
        if place < row {
            row = 0;
        }
        row = row_of(words, arities, relations, row, place);
        if row == place {
            return false;
        }
    }
    true
}

// Whether the latest entry is well formed. The tests before each read show that it is within the log.
fn entry_well_formed(header: Header, instance: &[u32], log: &[u32], used: usize) -> bool
    requires { sound header instance.now ≡ true }
    ensures { result ≡ entry_well_formed header instance.now log.now used }
{
    if log.len() < used {
        return false;
    }
    if used < 2 {
        return false;
    }
    let count = log[used - 1] as usize;
    let end = used - 2;
    if end < count {
        return false;
    }
    let mark = log[end];
    if !is_mark(mark) {
        return false;
    }
    let start = end - count;
    let size = header.used as usize;
    let arities = header.arities;
    are_places(
        &instance[..size],
        &arities,
        header.relations,
        &log[start..end],
    )
}

// Tests all that undo refuses before the first word is written; the entry's count if nothing is refused.
fn test_undo(header: Header, instance: &[u32], log: &[u32], used: usize) -> Answer
    ensures { result ≡ undone header instance.now log.now used }
{
    scan(header, instance)?;
    if used == 0 {
        return Err(Refusal::LogEmpty);
    }
    if !entry_well_formed(header, instance, log, used) {
        return Err(Refusal::BadLog);
    }
    Ok(log[used - 1])
}

// Writes x at each of the places.
fn put_all(words: &mut [u32], places: &[u32], x: u32)
    requires { (k : ℕ) → k < length places.now → get_or places.now k 0 < length words.old }
    ensures { words.new ≡ put_at places.now x words.old }
{
    for &place in places {
        words[place as usize] = x;
    }
}

// Puts the latest entry's null back into the cells that it was filled in, and takes the entry out of the words in use;
// the log's words stay.
pub fn undo(header: Header, instance: &mut [u32], log: &[u32], used: &mut usize) -> Answer
    ensures answer { result ≡ undone header instance.old log.now used.old }
    ensures words { instance.new ≡ undone_words header instance.old log.now used.old }
    ensures used { used.new ≡ undone_used header instance.old log.now used.old }
    ensures told { Tells result (undone header instance.old log.now used.old) (last_count log.now used.old) }
{
    let count = test_undo(header, instance, log, *used)?;
    let end = *used - 2;
    let start = end - count as usize;
    let mark = log[end];
    put_all(instance, &log[start..end], CONSTANTS + mark);
    *used = start;
    Ok(count)
}
