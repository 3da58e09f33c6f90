// The probe of one column by which rows are passed over.
ghost use Rattle.std.specs.Prelude.{◌≡◌, ◌+◌, ◌≤◌, ◌<◌, length};
ghost use Rattle.lookup.specs.Probe.{probe_at, Probes};
ghost use Rattle.lookup.specs.Passing.{limit_of};

use calculus::cell::CONSTANTS;

// Above every cell.
const ANY_CELL: u32 = u32::MAX;

// How many rows a column may fail to tell apart.
const FAILS: u32 = 4;

// A column, the limit for its cells, and how many rows it has failed to tell apart.
#[derive(Clone, Copy)]
pub struct Probe {
    pub column: usize,
    pub low: u32,
    pub failed: u32,
}

// How low a cell must be to tell by itself, if it differs from the asked one, that its row need not be compared. A
// number and no enum: one comparison with the cell tells.
fn limit(possible: bool, cell: u32) -> u32
    ensures { result ≡ limit_of possible cell }
{
    if possible {
        return ANY_CELL;
    }
    if cell < CONSTANTS {
        return CONSTANTS;
    }
    0
}

impl Probe {
    // A probe of a column, which has not failed yet.
    pub fn new(row: &[u32], column: usize, possible: bool) -> Probe
        requires { column < length row.now }
        ensures { result ≡ probe_at possible row.now column }
    {
        Probe {
            column,
            low: limit(possible, row[column]),
            failed: 0,
        }
    }

    // The probe after the row at a place, which had to be compared; `earlier` tells what was possible before it. A
    // column that fails too often gives way to the next, and the last to the first. Which column it is changes no
    // answer, so the choice is not promised.
    pub fn next(
        self,
        words: &[u32],
        place: usize,
        row: &[u32],
        earlier: bool,
        possible: bool,
    ) -> Probe
        requires { (place + (1 + length row.now) ≤ length words.now) × Probes earlier row.now self }
        ensures { Probes possible row.now result }
    {
        if possible != earlier {
            return Probe::new(row, self.column, possible);
        }
        if words[place + 1 + self.column] != row[self.column] {
            return self;
        }
        if self.failed < FAILS {
            let failed = self.failed + 1;
            return Probe { failed, ..self };
        }
        let next = self.column + 1;
        if next == row.len() {
            return Probe::new(row, 0, possible);
        }
        Probe::new(row, next, possible)
    }
}
