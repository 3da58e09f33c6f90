// The second pass over a card's records, which the first pass has checked: the rows are written.
ghost use Rattle.std.specs.Prelude.{◌≡◌, true, [], ◌∷◌, ◌+◌, ◌≤◌, length, drop};
ghost use Rattle.calculus.specs.Cell.{nulls};
ghost use Rattle.calculus.specs.Overwrite.{overwrite};
ghost use Rattle.instance.specs.Blanks.{numbered};
ghost use Rattle.instance.specs.Header.{max_columns};
ghost use Rattle.instance.specs.RowCounts.{row_counts};
ghost use Rattle.parse.specs.Parse.{is_read, got};
ghost use Rattle.card.specs.Format.{read_fields};
ghost use Rattle.decode.specs.Write.{WriteRows, rows_read, words_read};

use super::head::Head;
use calculus::cell::CONSTANTS;
use parse::number::{byte, number};

// Writes one row at the start of a part of `instance`; the row's first blank gets null `next`.
fn write_row(part: &mut [u32], relation: u32, arity: usize, map: u32, fields: &[u8], next: u32)
    requires arity_in_bounds { 1 + arity ≤ length part.old }
    requires arity_le_max_columns { arity ≤ max_columns }
    requires next_bound { next ≤ nulls + 1 }
    requires fields_value { is_read (read_fields arity map fields.now) ≡ true }
    ensures { part.new ≡ overwrite (relation ∷ numbered next (got [] (read_fields arity map fields.now))) part.old }
{
    part[0] = relation;
    let mut bits = map;
    let mut null = next;
    let mut at = 0;
    // By index: an iterator over the row's cells is slower (`make builds`, decode).
    for column in 0..arity {
        if bits % 2 == 1 {
            part[column + 1] = number(fields, at, 3);
            at += 3;
        } else {
            part[column + 1] = CONSTANTS + null;
            null += 1;
        }
        bits /= 2;
    }
}

// Writes the rows from the first word of `instance`, and returns how many of them each relation has; the first pass has
// checked the records.
pub fn write_rows(instance: &mut [u32], card: &[u8], head: &Head, next: u32) -> [u32; 8]
    requires { WriteRows instance.old card.now head.now.relations head.now.arities head.now.rows next }
    ensures counts { result ≡ row_counts (rows_read head.now.relations head.now.arities head.now.rows next
        (drop (head.now.relations + 3) card.now)) }
    ensures words { instance.new ≡ overwrite (words_read head.now.relations head.now.arities head.now.rows next
        (drop (head.now.relations + 3) card.now)) instance.old }
{
    let mut counts = [0u32; 8];
    let mut used = 0;
    let mut null = next;
    let mut at = head.relations as usize + 3;
    for _row in 0..head.rows {
        let relation = byte(card, at);
        counts[relation as usize] += 1;
        let map = byte(card, at + 1);
        let arity = head.arities[relation as usize];
        let written = map.count_ones();
        let first = at + 2;
        write_row(
            &mut instance[used..],
            relation,
            arity as usize,
            map,
            &card[first..],
            null,
        );
        used += 1 + arity as usize;
        null += arity - written;
        at = first + 3 * written as usize;
    }
    counts
}
