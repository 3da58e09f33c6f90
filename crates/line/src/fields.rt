// The fields of the input.
ghost use Rattle.std.specs.Prelude.{◌≡◌, [], MatchResult};
ghost use Rattle.calculus.specs.Reading.{read, refused};
ghost use Rattle.line.specs.Fields.{read_input, fields_in, WholeNumbers};

use super::INPUT;
use calculus::refusal::Refusal;
use parse::front::{read_number, read_part};

// The parts of the input: the card, the question's words of 4 bytes each, and the candidate's cells of 3 bytes each.
// The budget is a number already.
#[derive(Clone, Copy)]
pub struct Parts<'a> {
    pub card: &'a [u8],
    pub words: &'a [u8],
    pub cells: &'a [u8],
    pub budget: u32,
}

pub fn find(input: &[u8]) -> Result<Parts<'_>, Refusal>
    ensures { MatchResult result
        (λ parts. (read_input input.now ≡ read (fields_in parts) []) × WholeNumbers parts)
        (λ why. read_input input.now ≡ refused why) }
{
    if INPUT < input.len() {
        return Err(Refusal::InputTooLong);
    }
    let (size, rest) = read_number(input, 2)?;
    let (card, rest) = read_part(rest, size as usize)?;
    let (count, rest) = read_number(rest, 2)?;
    let (words, rest) = read_part(rest, 4 * count as usize)?;
    let (arity, rest) = read_number(rest, 1)?;
    let (cells, rest) = read_part(rest, 3 * arity as usize)?;
    let (budget, rest) = read_number(rest, 4)?;
    if !rest.is_empty() {
        return Err(Refusal::BytesLeftOver);
    }
    Ok(Parts {
        card,
        words,
        cells,
        budget,
    })
}
