// Reading a card into an instance.

#![tactic(auto)]

ghost use Rattle.std.specs.Prelude.{◌≡◌};
ghost use Rattle.calculus.specs.Answer.{Tells};
ghost use Rattle.card.specs.Decode.{decoded};
ghost use Rattle.decode.specs.Restarted.{restarted, answer_of};

use calculus::cell::NULLS;
use calculus::refusal::Refusal;
use head::read_head;
use instance::header::header_with;
use instance::room::has_room;
use measure::measure;
use undo_log::{FRESH, Restarted};
use write::write_rows;

mod head;
mod measure;
mod write;

// Nothing is written before everything is known to fit.
pub fn decode(card: &[u8], instance: &mut [u32]) -> Result<Restarted, Refusal>
    ensures result { result ≡ restarted (decoded card.now instance.old) }
    ensures words { instance.new ≡ (decoded card.now instance.old).words }
    ensures answer { answer_of result ≡ (decoded card.now instance.old).answer }
    ensures told { Tells (answer_of result) (decoded card.now instance.old).answer
        (decoded card.now instance.old).header.used }
{
    let head = read_head(card)?;
    let total = measure(card, head.relations as usize + 3, &head)?;
    if total.end < card.len() {
        return Err(Refusal::BytesLeftOver);
    }
    if NULLS < total.highest + total.blanks {
        return Err(Refusal::NullsExhausted);
    }
    if !has_room(total.words as usize, instance.len()) {
        return Err(Refusal::NoRoom);
    }
    let counts = write_rows(instance, card, &head, total.highest + 1);
    Ok(Restarted {
        header: header_with(head.relations, head.arities, total.words, counts),
        log: FRESH,
    })
}
