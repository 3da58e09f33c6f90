// A header as words, and an answer as numbers.
ghost use Rattle.std.specs.Prelude.{◌≡◌, length};
ghost use Rattle.calculus.specs.Answer.{number_of, value_of};
ghost use Rattle.answer.specs.Numbers.{asked_number, verdict_of, cost_of};
ghost use Rattle.exports.specs.Words.{header_of, header_words, header_length};

use answer::asked::Asked;
use calculus::answer::Answer;
use calculus::refusal::Refusal;
use instance::eight::{eight, put_eight};
use instance::header::{Header, RELATIONS, header_with};

// where each part of a header begins among its words, and the number of these
const RELATIONS_AT: usize = 0;

const ARITIES_AT: usize = RELATIONS_AT + 1;

const USED_AT: usize = ARITIES_AT + RELATIONS as usize;

const ROW_COUNTS_AT: usize = USED_AT + 1;

pub const HEADER: usize = ROW_COUNTS_AT + RELATIONS as usize;

pub fn read_header(words: &[u32]) -> Header
    requires { length words.now ≡ header_length }
    ensures { result ≡ header_of words.now }
{
    let arities = eight(words, ARITIES_AT);
    let counts = eight(words, ROW_COUNTS_AT);
    header_with(words[RELATIONS_AT], arities, words[USED_AT], counts)
}

pub fn write_header(words: &mut [u32], header: &Header)
    requires { length words.old ≡ header_length }
    ensures { words.new ≡ header_words header.now }
{
    words[RELATIONS_AT] = header.relations;
    put_eight(words, ARITIES_AT, &header.arities);
    words[USED_AT] = header.used;
    put_eight(words, ROW_COUNTS_AT, &header.counts);
}

// The number of an answer: 0 if the call is accepted.
pub fn number<T: Copy>(answer: Result<T, Refusal>) -> u32
    ensures { result ≡ number_of answer }
{
    match answer {
        Ok(_) => 0,
        Err(why) => u32::from(why),
    }
}

// Tells an answer as numbers: the value of an accepted call is stored, and a refused one leaves the old value.
pub fn tell(answer: Answer, value: &mut u32) -> u32
    ensures number { result ≡ number_of answer }
    ensures value { value.new ≡ value_of answer value.old }
{
    *value = answer.unwrap_or(*value);
    number(answer)
}

// The same of a question's answer: its verdict (0 false, 1 unknown, 2 true) and its cost.
pub fn tell_verdict(asked: Asked, truth: &mut u32, cost: &mut u32) -> u32
    ensures number { result ≡ asked_number asked }
    ensures truth { truth.new ≡ verdict_of asked truth.old }
    ensures cost { cost.new ≡ cost_of asked cost.old }
{
    if let Ok(verdict) = asked {
        *truth = verdict.truth.rank() as u32;
        *cost = verdict.cost;
    }
    number(asked)
}
