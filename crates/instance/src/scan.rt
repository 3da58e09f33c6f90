// One pass over an instance that tells whether it is sound, and how many rows it has.
ghost use Rattle.std.specs.Prelude.{◌≡◌, true, ◌≤◌, length};
ghost use Rattle.instance.specs.Header.{header_well_formed, max_relations, max_words};
ghost use Rattle.calculus.specs.Answer.{Tells};
ghost use Rattle.calculus.specs.Closed.{identical};
ghost use Rattle.instance.specs.RowCounts.{sum_of};
ghost use Rattle.instance.specs.Sound.{rows, scanned, scanned_words, sound_answer, tally};

use super::cells::are_cells;
use super::header::{Header, WORDS, is_arity, is_count};
use calculus::answer::Answer;
use calculus::refusal::Refusal;

// Whether a header has 1 to 8 relations, of 1 to 6 columns each, and no columns for the others.
fn header_well_formed(relations: u32, arities: &[u32; 8]) -> bool
    ensures { result ≡ header_well_formed relations arities.now }
{
    if !is_count(relations) {
        return false;
    }
    let (existing, absent) = arities.split_at(relations as usize);
    existing.iter().all(|a| is_arity(*a)) && absent.iter().all(|a| *a == 0)
}

// The number of rows that were found, if each relation has as many as its count says.
fn tally(counts: &[u32; 8], found: &[u32; 8]) -> Answer
    requires { sum_of found.now ≤ max_words }
    ensures { result ≡ tally (identical counts.now found.now) (sum_of found.now) }
{
    if counts != found {
        return Err(Refusal::Unsound);
    }
    Ok(found.iter().sum())
}

// The number of rows in the words; refused if they are not whole rows of cells, or if a relation has another number of
// rows than its count. The words and the arities are no struct: nothing is known of the two together before this pass.
fn scan_words(relations: u32, arities: &[u32; 8], counts: &[u32; 8], words: &[u32]) -> Answer
    requires { (header_well_formed relations arities.now ≡ true) × (length words.now ≤ max_words) }
    ensures { result ≡ scanned_words relations arities.now counts.now words.now }
{
    let mut found = [0u32; 8];
    // the last row's relation and arity, so that a row of the same relation needs no look into `arities`
    let mut relation = 0;
    let mut arity = arities[0] as usize;
    let mut i = 0;
    // A `while`: the step is the row's length. An iterator would keep the words and the arities beside the place,
    // and its law would be what this loop keeps, so it would be no plainer.
    while i < words.len() {
        let w = words[i];
        if w != relation {
            if relations <= w {
                return Err(Refusal::Unsound);
            }
            relation = w;
            arity = arities[w as usize] as usize;
        }
        let first = i + 1;
        let next = first + arity;
        if words.len() < next {
            return Err(Refusal::Unsound);
        }
        if !are_cells(&words[first..next]) {
            return Err(Refusal::Unsound);
        }
        found[w as usize] += 1;
        i = next;
    }
    tally(counts, &found)
}

pub fn scan(header: Header, instance: &[u32]) -> Answer
    ensures answer { result ≡ scanned header instance.now }
    ensures told { Tells result (sound_answer header instance.now) (length (rows header instance.now)) }
{
    let relations = header.relations;
    let arities = header.arities;
    let counts = header.counts;
    let used = header.used as usize;
    if WORDS < used {
        return Err(Refusal::Unsound);
    }
    if instance.len() < used {
        return Err(Refusal::Unsound);
    }
    if !header_well_formed(relations, &arities) {
        return Err(Refusal::Unsound);
    }
    scan_words(relations, &arities, &counts, &instance[..used])
}
