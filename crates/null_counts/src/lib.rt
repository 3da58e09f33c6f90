// The census: how many cells hold each null.

#![tactic(auto)]

ghost use Rattle.std.specs.Prelude.{◌≡◌, ◌≤◌, length};
ghost use Rattle.calculus.specs.Answer.{Tells};
ghost use Rattle.calculus.specs.Cell.{nulls};
ghost use Rattle.instance.specs.Header.{max_words};
ghost use Rattle.instance.specs.NullCounts.{counted, counted_words, nulls_in};

use calculus::answer::Answer;
use calculus::cell::{CONSTANTS, NULLS};
use calculus::refusal::Refusal;
use instance::header::Header;
use instance::scan::scan;

// The count of each null in words, in one pass.
fn count_words(words: &[u32]) -> [u32; 200]
    requires { length words.now ≤ max_words }
    ensures { result ≡ nulls_in words.now }
{
    let mut counts = [0u32; 200];
    for &w in words {
        if CONSTANTS < w && w <= CONSTANTS + NULLS {
            let k = (w - CONSTANTS - 1) as usize;
            counts[k] += 1;
        }
    }
    counts
}

pub fn null_counts(header: Header, instance: &[u32], counts: &mut [u32]) -> Answer
    ensures answer { result ≡ counted header instance.now counts.old }
    ensures words { counts.new ≡ counted_words header instance.now counts.old }
    ensures told { Tells result (counted header instance.now counts.old) nulls }
{
    scan(header, instance)?;
    if counts.len() < 200 {
        return Err(Refusal::OutputTooShort);
    }
    let used = header.used as usize;
    let found = count_words(&instance[..used]);
    counts[..200].copy_from_slice(&found);
    Ok(NULLS)
}
