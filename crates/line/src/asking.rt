// Asks the question of the input.
ghost use Rattle.std.specs.Prelude.{◌≡◌};
ghost use Rattle.line.specs.Fields.{WholeNumbers, fields_in};
ghost use Rattle.line.specs.Line.{asked_instance, answered};

use super::fields::{Parts, find};
use answer::ask::ask;
use answer::asked::Asked;
use decode::decode;
use instance::header::{Header, WORDS};
use parse::number::numbers;

// No question may have this many words, so the first 808 words of a longer one get the same refusal.
const LOOKED_AT: usize = 808;

// Asks the question in the parts of the input about a plot.
fn ask_instance(parts: &Parts<'_>, header: Header, instance: &[u32]) -> Asked
    requires { WholeNumbers parts.now }
    ensures { result ≡ asked_instance (fields_in parts.now) header instance.now }
{
    // arrays with a count: there is no heap
    let mut words = [0u32; LOOKED_AT];
    let count = (parts.words.len() / 4).min(LOOKED_AT);
    numbers(&mut words, parts.words, 0, 4, count);
    let mut cells = [0u32; 255];
    let arity = parts.cells.len() / 3;
    numbers(&mut cells, parts.cells, 0, 3, arity);
    let mut buffer = [0u32; WORDS];
    ask(
        header,
        instance,
        &words[..count],
        &cells[..arity],
        &mut buffer,
        parts.budget,
    )
}

pub fn answer(input: &[u8]) -> Asked
    ensures { result ≡ answered input.now }
{
    let parts = find(input)?;
    let mut instance = [0u32; WORDS];
    let restarted = decode(parts.card, &mut instance)?;
    ask_instance(&parts, restarted.header, &instance)
}
