// Compares an asked row with the row at a place of an instance's words, which is read where it stands. The words, the
// place and the row are no struct, since each call has another place.
ghost use Rattle.std.specs.Prelude.{◌≡◌, ◌+◌, ◌≤◌, length, [], ◌∷◌};
ghost use Rattle.calculus.specs.Unify.{bind, unifies_with};
ghost use Rattle.instance.specs.Header.{max_columns};
ghost use Rattle.calculus.specs.Closed.{stands};
ghost use Rattle.lookup.specs.Matching.{alike as alikeOf, unified, row_verdict};
ghost use Rattle.lookup.specs.Binding.{through, binding_of};
ghost use Rattle.lookup.specs.Place.{cells_at, compared_at, MeansMatch};

use calculus::cell::CONSTANTS;

#[derive(Clone, Copy)]
pub enum Match {
    Identical,
    Unifies,
    Apart,
}

// A null, and the cell that replaces it.
#[derive(Clone, Copy)]
struct Binding {
    null: u32,
    cell: u32,
}

impl Binding {
    // What makes two different cells equal, unless both are constants.
    fn between(x: u32, y: u32) -> Option<Binding>
        ensures { result ≡ binding_of x y }
    {
        if CONSTANTS <= x {
            Some(Binding { null: x, cell: y })
        } else if CONSTANTS <= y {
            Some(Binding { null: y, cell: x })
        } else {
            None
        }
    }

    // What a cell becomes.
    fn apply(self, c: u32) -> u32
        ensures { result ≡ bind self.null self.cell c }
    {
        if c == self.null { self.cell } else { c }
    }
}

// Applies bindings to a cell, in order.
fn put_through(bindings: &[Binding], cell: u32) -> u32
    ensures { result ≡ through bindings.now cell }
{
    bindings.iter().fold(cell, |c, binding| binding.apply(c))
}

// Whether two rows unify after two bindings. Further ones are kept after them, at most one for each column, in an
// array: the library has no heap.
fn unify_more(row: &[u32], found: &[u32], first: Binding, second: Binding) -> Match
    requires { (length found.now ≡ length row.now) × (length row.now + 2 ≤ max_columns) }
    ensures { result ≡ unified (unifies_with (through (first ∷ second ∷ [])) row.now found.now) }
{
    let mut bindings = [first; 6];
    bindings[1] = second;
    let mut count = 2;
    // By index, as in `unify`: both rows are read at it.
    for i in 0..row.len() {
        let x = put_through(&bindings[..count], row[i]);
        let y = put_through(&bindings[..count], found[i]);
        if x != y {
            let Some(next) = Binding::between(x, y) else {
                return Match::Apart;
            };
            bindings[count] = next;
            count += 1;
        }
    }
    Match::Unifies
}

// Whether two rows unify after a binding. There is no place for further bindings until a second null has to be bound:
// as one function with the last this would make their array for each row with a null.
fn unify(row: &[u32], found: &[u32], first: Binding) -> Match
    requires { (length found.now ≡ length row.now) × (length row.now + 1 ≤ max_columns) }
    ensures { result ≡ unified (unifies_with (through (first ∷ [])) row.now found.now) }
{
    // By index: the rest of both rows is cut there.
    for i in 0..row.len() {
        let x = first.apply(row[i]);
        let y = first.apply(found[i]);
        if x != y {
            let Some(second) = Binding::between(x, y) else {
                return Match::Apart;
            };
            return unify_more(&row[i + 1..], &found[i + 1..], first, second);
        }
    }
    Match::Unifies
}

// The number of columns before the first in which the row at a place differs from an asked row.
pub fn alike(words: &[u32], place: usize, row: &[u32]) -> usize
    requires { place + (1 + length row.now) ≤ length words.now }
    ensures { result ≡ alikeOf row.now (cells_at words.now place (length row.now)) }
{
    // By index: it is the answer too.
    for i in 0..row.len() {
        if row[i] != words[place + 1 + i] {
            return i;
        }
    }
    row.len()
}

// How an asked row compares with the row at a place. Nulls are bound only from the first column that differs, so rows
// of constants need no bindings.
pub fn compare(words: &[u32], place: usize, row: &[u32]) -> Match
    requires { (place + (1 + length row.now) ≤ length words.now) × (length row.now ≤ max_columns) }
    ensures answer { result ≡ compared_at words.now place row.now }
    ensures verdict { row_verdict result ≡ stands (cells_at words.now place (length row.now) ∷ []) row.now }
    ensures means { MeansMatch row.now (cells_at words.now place (length row.now)) result }
{
    let i = alike(words, place, row);
    if i == row.len() {
        return Match::Identical;
    }
    let found = &words[place + 1..place + 1 + row.len()];
    // Not by `Binding::between`: the compiler then makes both bindings for each row, and rows with nulls take a quarter
    // longer (`make builds`, 50 rows asked).
    let (asked, cell) = (row[i], found[i]);
    let first = if CONSTANTS <= asked {
        Binding { null: asked, cell }
    } else if CONSTANTS <= cell {
        Binding {
            null: cell,
            cell: asked,
        }
    } else {
        return Match::Apart;
    };
    unify(&row[i + 1..], &found[i + 1..], first)
}
