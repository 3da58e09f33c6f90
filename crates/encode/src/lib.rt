// Writing an instance as a card, every column written.

#![tactic(auto)]

ghost use Rattle.std.specs.Prelude.{◌≡◌, true, ◌∷◌, ◌++◌, ℕ, ◌+◌, ◌/◌, ◌%◌, ◌≤◌, ◌<◌, ◌*◌, length, take, drop};
ghost use Rattle.instance.specs.Header.{header_well_formed, arity_of, max_relations, max_columns};
ghost use Rattle.instance.specs.Rows.{words_well_formed, rows_from};
ghost use Rattle.calculus.specs.Answer.{Tells};
ghost use Rattle.instance.specs.Sound.{rows};
ghost use Rattle.card.specs.Encode.{card_bytes, encoded, encoded_bytes, records_bytes, full_map, fields_bytes};
ghost use Rattle.calculus.specs.Overwrite.{overwrite};

use calculus::answer::Answer;
use calculus::refusal::Refusal;
use instance::header::Header;
use instance::scan::scan;

// the map of a record with every column written, indexed by the number of columns
const FULL_MAPS: [u8; 7] = [0, 1, 3, 7, 15, 31, 63];

// Writes the bytes before the records.
fn write_head(out: &mut [u8], header: &Header, count: u32)
    requires formed { header_well_formed header.now.relations header.now.arities ≡ true }
    requires room { header.now.relations + 3 ≤ length out.old }
    ensures { out.new ≡ header.now.relations ∷ take header.now.relations header.now.arities
        ++ count / 256 % 256 ∷ count % 256 ∷ drop (header.now.relations + 3) out.old }
{
    let n = header.relations as usize;
    out[0] = header.relations as u8;
    for (i, arity) in header.arities[..n].iter().enumerate() {
        out[i + 1] = *arity as u8;
    }
    out[n + 1..n + 3].copy_from_slice(&count.to_be_bytes()[2..]);
}

// Writes the record of one row.
fn write_record(out: &mut [u8], relation: u32, cells: &[u32])
    requires { (relation < max_relations) × (length cells.now ≤ max_columns)
        × (2 + 3 * length cells.now ≤ length out.old) }
    ensures { out.new ≡ overwrite (relation ∷ full_map (length cells.now) ∷ fields_bytes cells.now) out.old }
{
    out[0] = relation as u8;
    out[1] = FULL_MAPS[cells.len()];
    for (i, cell) in cells.iter().enumerate() {
        let at = 2 + 3 * i;
        out[at..at + 3].copy_from_slice(&cell.to_be_bytes()[1..]);
    }
}

// Writes the records of the rows in the words, row by row.
fn write_records(out: &mut [u8], arities: &[u32; 8], words: &[u32])
    requires by_index { (r : ℕ) → arity_of arities.now r ≤ max_columns }
    requires words_value { words_well_formed max_relations arities.now 0 words.now ≡ true }
    requires words_in_bounds { length (records_bytes (rows_from arities.now 0 words.now)) ≤ length out.old }
    ensures { out.new ≡ overwrite (records_bytes (rows_from arities.now 0 words.now)) out.old }
{
    let mut at = 0;
    let mut i = 0;
    // A `while`: the step is the row's length. An iterator would keep the words and the arities beside the place,
    // and its law would be what this loop keeps, so it would be no plainer.
    while i < words.len() {
        let relation = words[i];
        let first = i + 1;
        let next = first + arities[relation as usize] as usize;
        write_record(&mut out[at..], relation, &words[first..next]);
        at += 2 + 3 * (next - first);
        i = next;
    }
}

// Writes the card of an instance from the first byte, and returns the number of its bytes.
pub fn encode(header: Header, instance: &[u32], out: &mut [u8]) -> Answer
    ensures answer { result ≡ encoded header instance.now out.old }
    ensures bytes { out.new ≡ encoded_bytes header instance.now out.old }
    ensures told { Tells result (encoded header instance.now out.old)
        (length (card_bytes header (rows header instance.now))) }
{
    let count = scan(header, instance)?;
    let used = header.used as usize;
    let start = header.relations as usize + 3;
    let size = start + (3 * used - count as usize);
    if out.len() < size {
        return Err(Refusal::OutputTooShort);
    }
    write_head(out, &header, count);
    write_records(&mut out[start..], &header.arities, &instance[..used]);
    Ok(size as u32)
}
