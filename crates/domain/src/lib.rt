// What quantifiers range over: an instance's cells and then a question's inked terms, each value once, in order of
// first occurrence.

#![tactic(auto)]

ghost use Rattle.std.specs.Prelude.{◌≡◌, ◌++◌, ◌≤◌, length};
ghost use Rattle.calculus.specs.Row.{cells_of};
ghost use Rattle.calculus.specs.Domain.{range_over};
ghost use Rattle.instance.specs.Rows.{rows_from};
ghost use Rattle.instance.specs.InstanceWellFormed.{InstanceOf};
ghost use Rattle.calculus.specs.Overwrite.{overwrite};
ghost use Rattle.instance.specs.Header.{max_words};
ghost use Rattle.query.specs.Named.{named_in};
ghost use Rattle.domain.specs.Chains.{Chained, Added};

use chain::{Chains, unlink};
use query::inked::Terms;

pub mod bucket;
mod chain;

// Lists the values of the cells at the start of a buffer, row by row; the rest of the buffer stays. The words and the
// arities are no struct: their fact `InstanceOf` holds the number of relations, and a ghost field has to be a
// proposition.
fn list_cells(words: &[u32], arities: &[u32; 8], buffer: &mut [u32], chains: &mut Chains)
    requires instance_of { InstanceOf arities.now words.now
        × Chained chains.old.heads buffer.old chains.old.count × (chains.old.count ≡ 0) }
    requires words_in_bounds { length (cells_of (rows_from arities.now 0 words.now)) ≤ length buffer.old }
    ensures chained { Chained chains.new.heads buffer.new chains.new.count }
    ensures added { Added buffer.old 0
        (cells_of (rows_from arities.now 0 words.now)) buffer.new chains.new.count }
{
    let mut i = 0;
    // A `while`: the step is the row's length. An iterator would keep the words and the arities beside the place,
    // and its law would be what this loop keeps, so it would be no plainer.
    while i < words.len() {
        let first = i + 1;
        let next = first + arities[words[i] as usize] as usize;
        chains.add_cells(buffer, &words[first..next]);
        i = next;
    }
}

// Lists the range at the start of a buffer, and returns the number of its values; the rest of the buffer stays.
pub fn list_range(words: &[u32], terms: &Terms, buffer: &mut [u32]) -> usize
    requires instance_of { InstanceOf terms.now.arities.now words.now }
    requires query_in_bounds { length (cells_of (rows_from terms.now.arities.now 0 words.now)
        ++ named_in terms.now.arities.now terms.now.query.now) ≤ length buffer.old }
    requires query_len_bound { length (cells_of (rows_from terms.now.arities.now 0 words.now)
        ++ named_in terms.now.arities.now terms.now.query.now) ≤ max_words }
    ensures number { result ≡ length (range_over (named_in terms.now.arities.now terms.now.query.now)
        (rows_from terms.now.arities.now 0 words.now)) }
    ensures values { buffer.new ≡ overwrite
        (range_over (named_in terms.now.arities.now terms.now.query.now)
        (rows_from terms.now.arities.now 0 words.now)) buffer.old }
{
    let mut chains = Chains::new();
    list_cells(words, terms.arities, buffer, &mut chains);
    chains.add_named(buffer, terms);
    unlink(&mut buffer[..chains.count]);
    chains.count
}
