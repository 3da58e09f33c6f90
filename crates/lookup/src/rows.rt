// Finds the rows of a relation one after another, in the order in which they stand among an instance's words.
//
// The words, `known` and the relation are no struct, here and in `stands`: their fact `RowsLeft` speaks of a place and
// of a number of rows too, which change from call to call.
ghost use Rattle.std.specs.Prelude.{◌≡◌, ℕ, suc, ◌+◌, ◌<◌, Bool, List, get_or, take, drop};
ghost use Rattle.calculus.specs.Closed.{tuples};
ghost use Rattle.instance.specs.Rows.{rows_from};
ghost use Rattle.instance.specs.Header.{arity_of};
ghost use Rattle.known.specs.Known.{arities_in};
ghost use Rattle.lookup.specs.Passing.{RowsLeft, told_apart, passing, words_passed};

use known::Known;

// The place of a row, and how many rows of its relation are left from there on. With no row left it is the place after
// the last that was passed over, which the clause `place` of `next_near` promises, so this is no `Option`.
#[derive(Clone, Copy)]
pub struct Near {
    pub place: usize,
    pub more: u32,
}

// The place of the relation's next row. While rows of another relation follow one another, their length is not looked
// up again: that look-up would have to end before the next word can be read. Such rows are passed over two at a time.
fn next_row(words: &[u32], known: &Known, relation: u32, place: usize) -> usize
    requires { RowsLeft (arities_in known.now) words.now relation place 1 }
    ensures here { get_or words.now result 0 ≡ relation }
    ensures rows { tuples relation (rows_from (arities_in known.now) 0 (drop result words.now))
        ≡ tuples relation (rows_from (arities_in known.now) 0 (drop place words.now)) }
    ensures left { RowsLeft (arities_in known.now) words.now relation result 1 }
    ensures place { (test : List ℕ → Bool) (n : ℕ)
        → result + words_passed test relation (suc n) (rows_from (arities_in known.now) 0 (drop result words.now))
        ≡ place + words_passed test relation (suc n) (rows_from (arities_in known.now) 0 (drop place words.now)) }
{
    let mut other = relation;
    let mut step = 0;
    let mut i = place;
    let mut w = words[i];
    // A `while`: the step is the length of the row there. An iterator would keep the words and what is known of them
    // beside the place, and its law would be what this loop keeps, so it would be no plainer.
    while w != relation {
        if w != other {
            other = w;
            step = 1 + known.arity(w as usize);
        }
        i += step;
        w = words[i];
        if w == other {
            i += step;
            w = words[i];
        }
    }
    i
}

// The next of the relation's `most` rows whose cell in the column is the asked one, or is not below `limit`. The rows
// before it are passed over in a loop that does nothing else. If all are, none is left.
pub fn next_near(
    words: &[u32],
    known: &Known,
    relation: u32,
    column: usize,
    asked: u32,
    limit: u32,
    place: usize,
    most: u32,
) -> Near
    requires { RowsLeft (arities_in known.now) words.now relation place most
        × (column < arity_of (arities_in known.now) relation) }
    ensures rows { take result.more (tuples relation (rows_from (arities_in known.now) 0 (drop result.place words.now)))
        ≡ passing (told_apart column asked limit)
        (take most (tuples relation (rows_from (arities_in known.now) 0 (drop place words.now)))) }
    ensures left { RowsLeft (arities_in known.now) words.now relation result.place result.more }
    ensures here { 0 < result.more → get_or words.now result.place 0 ≡ relation }
    ensures place { result.place ≡ place + words_passed (told_apart column asked limit) relation most
        (rows_from (arities_in known.now) 0 (drop place words.now)) }
{
    let step = 1 + known.arity(relation as usize);
    let mut more = most;
    let mut i = place;
    // A `while` that counts down: a `for` counts the rows passed over beside those left, and takes a tenth longer
    // (`make builds`, 50 rows asked).
    while 0 < more {
        i = next_row(words, known, relation, i);
        let cell = words[i + 1 + column];
        if cell == asked || limit <= cell {
            return Near { place: i, more };
        }
        more -= 1;
        i += step;
    }
    Near { place: i, more: 0 }
}
