// A list of values while it is being built: a hash table whose chains run through the list. At most 980 cells share a
// bucket, so no chain is longer.
ghost use Rattle.std.specs.Prelude.{◌≡◌, ◌≤◌, ◌<◌, ◌+◌, map, replicate, [], ◌∷◌, length, true};
ghost use Rattle.instance.specs.Header.{max_words};
ghost use Rattle.calculus.specs.Listed.{listed};
ghost use Rattle.domain.specs.Bucket.{buckets};
ghost use Rattle.domain.specs.Chains.{link_unit, word_value, values_of, InBucket, Linked, Chained, Added};
ghost use Rattle.instance.specs.Rows.{are_cells};
ghost use Rattle.query.specs.Named.{constants_among, named_in};

use super::bucket::bucket_of;
use calculus::cell::CONSTANTS;
use query::inked::Terms;

// Each word packs a value (low 20 bits) and a link (high 12 bits), so that the list needs no memory besides the lent
// buffer: cells are below 2^20, and a link is at most 4,095.
const LINK_UNIT: u32 = 1_048_576;

// Whether a cell is among the first `head` values of a list, found along the chain of its bucket.
fn find(list: &[u32], head: usize, cell: u32) -> bool
    requires { (head ≤ length list.now) × Linked list.now head × InBucket list.now cell head }
    ensures { result ≡ listed cell (values_of head list.now) }
{
    let mut place = head;
    // A `while`: the next place is a link, which no range has.
    while 0 < place {
        let w = list[place - 1];
        if w % LINK_UNIT == cell {
            return true;
        }
        place = (w / LINK_UNIT) as usize;
    }
    false
}

// How many values stand at the start of a list, and where the chain of each bucket starts: the place of its latest
// value, counted from 1, or 0 if it has none: with a `None` a head would not fit in 16 bits. The list itself is no
// field: it is lent, and ends as a list without links.
#[derive(Drop)]
pub struct Chains {
    pub count: usize,
    pub heads: [u16; 1024],
}

impl Chains {
    pub fn new() -> Chains
        ensures { result ≡ record { count = 0; heads = replicate buckets 0 } }
    {
        Chains {
            count: 0,
            heads: [0; 1024],
        }
    }

    // Adds a cell after a list's values if it is not among them.
    fn add_value(&mut self, list: &mut [u32], cell: u32)
        requires { (self.old.count < length list.old) × (self.old.count < max_words) × (cell < link_unit)
            × Chained self.old.heads list.old self.old.count }
        ensures chained { Chained self.new.heads list.new self.new.count }
        ensures added { Added list.old self.old.count (cell ∷ []) list.new self.new.count }
    {
        let bucket = bucket_of(cell);
        let head = self.heads[bucket];
        if find(list, usize::from(head), cell) {
            return;
        }
        list[self.count] = cell + LINK_UNIT * u32::from(head);
        self.count += 1;
        self.heads[bucket] = self.count as u16;
    }

    // Adds cells after a list's values, each if it is not listed yet.
    pub fn add_cells(&mut self, list: &mut [u32], cells: &[u32])
        requires { (self.old.count + length cells.now ≤ length list.old)
            × (self.old.count + length cells.now ≤ max_words) × (are_cells cells.now ≡ true)
            × Chained self.old.heads list.old self.old.count }
        ensures chained { Chained self.new.heads list.new self.new.count }
        ensures added { Added list.old self.old.count cells.now list.new self.new.count }
    {
        for cell in cells {
            self.add_value(list, *cell);
        }
    }

    // Adds the constants among words after a list's values, each if it is not listed yet. The test is no closure for
    // `add_cells` too: there it would be a promise of the caller, and the room that is asked for would depend on it.
    fn add_constants(&mut self, list: &mut [u32], words: &[u32])
        requires { (self.old.count + length (constants_among words.now) ≤ length list.old)
            × (self.old.count + length (constants_among words.now) ≤ max_words)
            × Chained self.old.heads list.old self.old.count }
        ensures chained { Chained self.new.heads list.new self.new.count }
        ensures added { Added list.old self.old.count (constants_among words.now) list.new self.new.count }
    {
        for word in words {
            if *word < CONSTANTS {
                self.add_value(list, *word);
            }
        }
    }

    // Adds a question's inked terms after a list's values, by node and word, each if it is not listed yet.
    pub fn add_named(&mut self, list: &mut [u32], terms: &Terms)
        requires chained { Chained self.old.heads list.old self.old.count }
        requires query_in_bounds { (self.old.count + length (named_in terms.now.arities.now terms.now.query.now)
            ≤ length list.old)
            × (self.old.count + length (named_in terms.now.arities.now terms.now.query.now) ≤ max_words) }
        ensures chained { Chained self.new.heads list.new self.new.count }
        ensures added { Added list.old self.old.count (named_in terms.now.arities.now terms.now.query.now)
            list.new self.new.count }
    {
        for node in 0..terms.nodes() {
            self.add_constants(list, terms.of(node));
        }
    }
}

// Removes the links from a list.
pub fn unlink(list: &mut [u32])
    ensures { list.new ≡ map word_value list.old }
{
    for word in list.iter_mut() {
        *word %= LINK_UNIT;
    }
}
