// Inserts (enters) a row.

#![tactic(auto)]

ghost use Rattle.std.specs.Prelude.{◌≡◌, ◌+◌, ◌≤◌, ◌∷◌, ◌++◌, length, drop};
ghost use Rattle.calculus.specs.Answer.{Tells};
ghost use Rattle.instance.specs.Insert.{inserted, inserted_header, inserted_words};

use calculus::answer::Answer;
use calculus::refusal::Refusal;
use instance::cells::are_cells;
use instance::header::Header;
use instance::room::has_room;
use instance::scan::scan;

fn check_insert(header: Header, instance: &[u32], relation: u32, cells: &[u32]) -> Answer
    ensures { result ≡ inserted header instance.now relation cells.now }
{
    scan(header, instance)?;
    if header.relations <= relation {
        return Err(Refusal::NoSuchRelation);
    }
    let arities = header.arities;
    if cells.len() != arities[relation as usize] as usize {
        return Err(Refusal::WrongRowLength);
    }
    if !are_cells(cells) {
        return Err(Refusal::NotACell);
    }
    let used = header.used as usize + (1 + cells.len());
    if !has_room(used, instance.len()) {
        return Err(Refusal::NoRoom);
    }
    Ok(used as u32)
}

// Writes a row's words at the start of a part of the instance.
fn write_row(part: &mut [u32], relation: u32, cells: &[u32])
    requires { 1 + length cells.now ≤ length part.old }
    ensures { part.new ≡ relation ∷ cells.now ++ drop (1 + length cells.now) part.old }
{
    part[0] = relation;
    // Cell by cell: a copy of a slice whose length is not known calls `memmove`, which the archive for C must not need.
    for (i, cell) in cells.iter().enumerate() {
        part[i + 1] = *cell;
    }
}

// Inserts a row after the words in use.
pub fn insert(header: &mut Header, instance: &mut [u32], relation: u32, cells: &[u32]) -> Answer
    ensures answer { result ≡ inserted header.old instance.old relation cells.now }
    ensures header { header.new ≡ inserted_header header.old instance.old relation cells.now }
    ensures words { instance.new ≡ inserted_words header.old instance.old relation cells.now }
    ensures told { Tells result (inserted header.old instance.old relation cells.now)
        (inserted_header header.old instance.old relation cells.now).used }
{
    let used = check_insert(*header, instance, relation, cells)?;
    write_row(&mut instance[header.used as usize..], relation, cells);
    header.used = used;
    header.counts[relation as usize] += 1;
    Ok(used)
}
