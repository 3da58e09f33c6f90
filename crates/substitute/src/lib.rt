// A fill: replaces a null by a cell, in every cell that holds the null.

#![tactic(auto)]

ghost use Rattle.std.specs.Prelude.{◌≡◌, ◌≤◌, map, length};
ghost use Rattle.calculus.specs.Cell.{null, nulls, put};
ghost use Rattle.instance.specs.Header.{max_words};
ghost use Rattle.calculus.specs.Answer.{Tells};
ghost use Rattle.calculus.specs.Fill.{unlogged, count_of, held};
ghost use Rattle.instance.specs.Sound.{rows};
ghost use Rattle.instance.specs.Substitute.{fillable, substituted, substituted_words};

use calculus::answer::Answer;
use calculus::cell::{CONSTANTS, is_cell, is_mark};
use calculus::refusal::Refusal;
use instance::header::Header;
use instance::scan::scan;

// Tests what comes before a null's cells are counted, for fills with a log and without.
pub fn test_fill(header: Header, instance: &[u32], mark: u32, cell: u32) -> Result<(), Refusal>
    ensures { result ≡ fillable header instance.now mark cell }
{
    scan(header, instance)?;
    if !is_mark(mark) {
        return Err(Refusal::NoSuchNull);
    }
    if !is_cell(cell) {
        return Err(Refusal::NotACell);
    }
    Ok(())
}

// A relation's number is below every null, so the pass need not tell relation numbers from cells. The bounds stand in
// the contracts, here and for logged fills, and in no type: it would be made and taken apart in one call.
pub fn replace(words: &mut [u32], mark: u32, cell: u32) -> u32
    requires { (mark ≤ nulls) × (length words.old ≤ max_words) }
    ensures count { result ≡ count_of (null mark) words.old }
    ensures words { words.new ≡ map (put mark cell) words.old }
{
    let null = CONSTANTS + mark;
    let mut count: u32 = 0;
    for word in words {
        if *word == null {
            *word = cell;
            count += 1;
        }
    }
    count
}

// A fill without a log.
pub fn substitute(header: Header, instance: &mut [u32], mark: u32, cell: u32) -> Answer
    ensures answer { result ≡ substituted header instance.old unlogged mark cell }
    ensures words { instance.new ≡ substituted_words header instance.old unlogged mark cell }
    ensures told { Tells result (substituted header instance.old unlogged mark cell)
        (held mark (rows header instance.old)) }
{
    test_fill(header, instance, mark, cell)?;
    let used = header.used as usize;
    let count = replace(&mut instance[..used], mark, cell);
    if count == 0 {
        return Err(Refusal::NullAbsent);
    }
    Ok(count)
}
