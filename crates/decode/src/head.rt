// What comes before a card's records: the number of relations, their arities and the number of rows.
ghost use Rattle.std.specs.Prelude.{◌≡◌, [], ◌^◌, ◌≤◌, ◌<◌, length, drop, IfOk};
ghost use Rattle.instance.specs.Header.{max_relations};
ghost use Rattle.card.specs.Format.{read_arities, read_head};
ghost use Rattle.decode.specs.Measure.{opened_arities, opened_head};

use calculus::refusal::Refusal;
use instance::header::{is_arity, is_count};
use parse::number::{byte_if_any, number};

// No ghost fields: what `read_head` promises is an equation of heads, and its right side would have to build their
// proofs. It is read by index, and not from the front, since the second pass reads at the same indices.
#[derive(Clone, Copy)]
pub struct Head {
    pub relations: u32,
    // a relation's number of columns; 0 for a relation that does not exist
    pub arities: [u32; 8],
    pub rows: u32,
}

fn read_arities(card: &[u8], relations: usize) -> Result<[u32; 8], Refusal>
    requires few { relations ≤ max_relations }
    requires opened { 1 ≤ length card.now }
    ensures { result ≡ opened_arities [] (read_arities relations (drop 1 card.now)) }
{
    let mut arities = [0u32; 8];
    // By index: a byte and its arity stand at two indices.
    for i in 0..relations {
        let arity = byte_if_any(card, i + 1)?;
        if !is_arity(arity) {
            return Err(Refusal::BadArity);
        }
        arities[i] = arity;
    }
    Ok(arities)
}

pub fn read_head(card: &[u8]) -> Result<Head, Refusal>
    ensures head { result ≡ opened_head (read_head card.now) }
    ensures counted { IfOk result (λ head. head.rows < 256 ^ 2) }
{
    let relations = byte_if_any(card, 0)?;
    if !is_count(relations) {
        return Err(Refusal::BadRelationCount);
    }
    let arities = read_arities(card, relations as usize)?;
    let at = relations as usize + 1;
    if card.len() - at < 2 {
        return Err(Refusal::CutShort);
    }
    let rows = number(card, at, 2);
    Ok(Head {
        relations,
        arities,
        rows,
    })
}
