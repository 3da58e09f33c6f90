// What an atom says of a row: whether it is in a relation, and how many of the relation's rows are examined for that.
ghost use Rattle.std.specs.Prelude.{◌≡◌, ◌+◌, ◌≤◌, length, take};
ghost use Rattle.calculus.specs.Closed.{tuples};
ghost use Rattle.calculus.specs.KindOne.{MeansStands, MeansExamined};
ghost use Rattle.instance.specs.Header.{arity_of, max_columns};
ghost use Rattle.instance.specs.Rows.{rows_from};
ghost use Rattle.lookup.specs.Examined.{examined_of};
ghost use Rattle.lookup.specs.Matching.{match_after};
ghost use Rattle.known.specs.Known.{arities_in};
ghost use Rattle.lookup.specs.Passing.{RowsLeft};
ghost use Rattle.lookup.specs.Place.{cells_at};

use super::probe::Probe;
use super::row::{Match, alike, compare};
use super::rows::next_near;
use calculus::truth::Truth;
use known::Known;

// What rows of a relation say of a row, and how many of them were examined.
#[derive(Clone, Copy)]
pub struct Examined {
    pub truth: Truth,
    pub rows: u32,
}

// How the row at a place compares with an asked row, if it matters: once an earlier row has unified, only identity
// does.
fn compare_after(words: &[u32], place: usize, row: &[u32], possible: bool) -> Match
    requires { (place + (1 + length row.now) ≤ length words.now) × (length row.now ≤ max_columns) }
    ensures { result ≡ match_after possible row.now (cells_at words.now place (length row.now)) }
{
    if possible {
        if alike(words, place, row) == row.len() {
            return Match::Identical;
        }
        return Match::Unifies;
    }
    compare(words, place, row)
}

// What the first `most` rows of the relation say. An identical row ends the pass, and so does the last of those rows. A
// row that only unifies does not: a later one may be identical. A row is not compared if a probe of one column tells
// enough.
pub fn stands(words: &[u32], known: &Known, relation: u32, most: u32, row: &[u32; 6]) -> Examined
    requires { RowsLeft (arities_in known.now) words.now relation 0 most }
    ensures answer { result ≡ examined_of
        (take most (tuples relation (rows_from (arities_in known.now) 0 words.now)))
        (take (arity_of (arities_in known.now) relation) row.now) }
    ensures verdict { MeansStands
        (take most (tuples relation (rows_from (arities_in known.now) 0 words.now)))
        (take (arity_of (arities_in known.now) relation) row.now) result.truth }
    ensures charge { MeansExamined
        (take most (tuples relation (rows_from (arities_in known.now) 0 words.now)))
        (take (arity_of (arities_in known.now) relation) row.now) result.rows }
{
    let arity = known.arity(relation as usize);
    let asked = &row[..arity];
    let mut probe = Probe::new(asked, 0, false);
    let mut possible = false;
    let mut more = most;
    let mut i = 0;
    // A `while`: a search passes over as many rows as it finds, which no range has.
    while 0 < more {
        let cell = asked[probe.column];
        let near = next_near(
            words,
            known,
            relation,
            probe.column,
            cell,
            probe.low,
            i,
            more,
        );
        more = near.more;
        if 0 < more {
            let earlier = possible;
            match compare_after(words, near.place, asked, possible) {
                Match::Identical => {
                    let examined = most - more + 1;
                    return Examined {
                        truth: Truth::True,
                        rows: examined,
                    };
                }
                Match::Unifies => possible = true,
                Match::Apart => {}
            }
            probe = probe.next(words, near.place, asked, earlier, possible);
            more -= 1;
            i = near.place + 1 + arity;
        }
    }
    Examined {
        truth: if possible {
            Truth::Unknown
        } else {
            Truth::False
        },
        rows: most,
    }
}
