// The first pass over a card's records: every byte is checked, and what the rows need is added up.
ghost use Rattle.std.specs.Prelude.{◌≡◌, true, ◌^◌, ◌≤◌, ◌<◌, length, drop};
ghost use Rattle.instance.specs.Header.{arities_well_formed, max_relations};
ghost use Rattle.card.specs.Format.{read_record, read_records};
ghost use Rattle.decode.specs.Measure.{read_written, measured_fields, measured_record, TellsRecord};
ghost use Rattle.decode.specs.Measure.{measured_from, TellsRecords};

use super::head::Head;
use calculus::answer::Answer;
use calculus::cell::{CONSTANTS, is_cell};
use calculus::refusal::Refusal;
use parse::number::{byte_if_any, number};

// What one record has: its columns, how many of them are written, and the highest null in these.
#[derive(Clone, Copy)]
pub struct Measured {
    pub arity: u32,
    pub written: u32,
    pub highest: u32,
}

// What all records need, and where the last one ends.
#[derive(Clone, Copy)]
pub struct Total {
    pub words: u32,
    pub blanks: u32,
    pub highest: u32,
    pub end: usize,
}

// The highest null in the given number of written fields. 0 is the maximum of none, so this is no `Option`.
fn measure_fields(bytes: &[u8], written: u32) -> Answer
    ensures { result ≡ measured_fields (read_written written bytes.now) }
{
    let mut highest: u32 = 0;
    // By index: a field is cut short only after those before it were tested, which chunks of the bytes would not tell.
    for i in 0..written as usize {
        let at = 3 * i;
        if bytes.len() - at < 3 {
            return Err(Refusal::CutShort);
        }
        let cell = number(bytes, at, 3);
        if !is_cell(cell) {
            return Err(Refusal::NotACell);
        }
        // A test: the highest null seldom rises, and a maximum at each field is slower (`make builds`, decode).
        if CONSTANTS + highest < cell {
            highest = cell - CONSTANTS;
        }
    }
    Ok(highest)
}

// Measures one record, at the start of the bytes.
fn measure_record(bytes: &[u8], head: &Head) -> Result<Measured, Refusal>
    requires few { head.now.relations ≤ max_relations }
    requires formed { arities_well_formed head.now.relations head.now.arities ≡ true }
    ensures answer { result ≡ measured_record (read_record head.now.relations head.now.arities bytes.now) }
    ensures told { TellsRecord result (read_record head.now.relations head.now.arities bytes.now) }
{
    let relation = byte_if_any(bytes, 0)?;
    if head.relations <= relation {
        return Err(Refusal::NoSuchRelation);
    }
    let map = byte_if_any(bytes, 1)?;
    let arity = head.arities[relation as usize];
    if map.leading_zeros() < 32 - arity {
        return Err(Refusal::BitBeyondArity);
    }
    let written = map.count_ones();
    let highest = measure_fields(&bytes[2..], written)?;
    Ok(Measured {
        arity,
        written,
        highest,
    })
}

// Measures the records, from index `start` of the card.
pub fn measure(card: &[u8], start: usize, head: &Head) -> Result<Total, Refusal>
    requires within { start ≤ length card.now }
    requires few { head.now.relations ≤ max_relations }
    requires formed { arities_well_formed head.now.relations head.now.arities ≡ true }
    requires counted { head.now.rows < 256 ^ 2 }
    ensures answer { result ≡ measured_from card.now start head.now.relations head.now.arities head.now.rows }
    ensures told { TellsRecords result (length card.now)
        (read_records head.now.relations head.now.arities head.now.rows (drop start card.now)) }
{
    let mut total = Total {
        words: 0,
        blanks: 0,
        highest: 0,
        end: start,
    };
    for _row in 0..head.rows {
        let measured = measure_record(&card[total.end..], head)?;
        total.words += 1 + measured.arity;
        total.blanks += measured.arity - measured.written;
        total.highest = total.highest.max(measured.highest);
        total.end += 2 + 3 * measured.written as usize;
    }
    Ok(total)
}
