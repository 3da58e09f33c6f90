// Passing over each relation's number and each cell that stood earlier.
ghost use Rattle.std.specs.Prelude.{◌≡◌, false, [], ℕ, ◌+◌, ◌≤◌, ◌<◌, length, get_or, replicate};
ghost use Rattle.calculus.specs.Listed.{listed};
ghost use Rattle.instance.specs.Header.{max_words};
ghost use Rattle.instance.specs.InstanceWellFormed.{InstanceOf};
ghost use Rattle.known.specs.Known.{max_places, arities_in, flag_at, unpassed, SameBesides, Flagged};
ghost use Rattle.range.specs.Cache.{head_count, Head, Cached};
ghost use Rattle.range.specs.Flagged.{stood_before};
ghost use Rattle.range.specs.Walked.{passes};

use domain::bucket::bucket_of;
use known::Known;

// Whether a cell is among the words that are not passed over; the first word has place `first`. The flag is read only
// at an equal word, which may be a relation's number.
pub fn stood(known: &Known, first: usize, words: &[u32], cell: u32) -> bool
    requires { first + length words.now ≤ max_places }
    ensures { result ≡ listed cell (unpassed known.now first words.now) }
{
    for (j, word) in words.iter().enumerate() {
        if *word == cell && !known.passed(first + j) {
            return true;
        }
    }
    false
}

// Whether a cell stood before a place. The head that the cell shares with others often tells; only if another cell has
// it are the words scanned. A head is 0 and no None if no cell has it yet, so that it takes 16 bits.
pub fn stood_earlier(words: &[u32], known: &Known, place: usize, cell: u32, head: usize) -> bool
    requires place_in { (place ≤ length words.now) × (length words.now ≤ max_words) }
    requires head { Head words.now (stood_before known.now words.now place) place cell head }
    ensures { result ≡ listed cell (stood_before known.now words.now place) }
{
    if head == 0 {
        return false;
    }
    if words[head - 1] == cell {
        return true;
    }
    stood(known, 0, &words[..place], cell)
}

// Passes over the cell at a place if it stood earlier, and puts its place into the cell's head.
fn pass_again(words: &[u32], known: &mut Known, heads: &mut [u16; 512], place: usize)
    requires place_in { (place < length words.now) × (length words.now ≤ max_words)
        × (flag_at known.old place ≡ false) }
    requires cached_before { Cached heads.old words.now (stood_before known.old words.now place) place }
    ensures flags { Flagged known.old place
        (listed (get_or words.now place 0) (stood_before known.old words.now place)) known.new }
    ensures cached { Cached heads.new words.now (stood_before known.new words.now (place + 1)) (place + 1) }
{
    let cell = words[place];
    let bucket = bucket_of(cell) / 2;
    let head = usize::from(heads[bucket]);
    heads[bucket] = (place + 1) as u16;
    if stood_earlier(words, known, place, cell, head) {
        known.pass(place);
    }
}

// Sets the flag of each word of the instance that a walk over the values passes over, and leaves the heads of its
// cells.
pub fn pass_cells(words: &[u32], known: &mut Known, heads: &mut [u16; 512])
    requires instance_of { InstanceOf (arities_in known.old) words.now × (heads.old ≡ replicate head_count 0) }
    requires no_flags { (p : ℕ) → flag_at known.old p ≡ false }
    ensures kept { SameBesides known.old known.new }
    ensures flags { (p : ℕ) → flag_at known.new p
        ≡ get_or (passes (arities_in known.old) [] 0 words.now) p false }
    ensures cached { Cached heads.new words.now
        (unpassed known.new 0 words.now) (length words.now) }
{
    let mut left = 0;
    // By index: it is the place whose flag is set.
    for i in 0..words.len() {
        if left == 0 {
            left = known.arity(words[i] as usize);
            known.pass(i);
        } else {
            pass_again(words, known, heads, i);
            left -= 1;
        }
    }
}
