// The line that plotask prints.

#![tactic(auto)]

ghost use Rattle.std.specs.Prelude.{◌≡◌};
ghost use Rattle.line.specs.Line.{line_length, line_out};

use asking::answer;
use text::{write_refused, write_verdict};

// how many bytes an input may have
pub const INPUT: usize = 16384;

// no line has more bytes
pub const LINE: usize = 20;

mod asking;
mod fields;
mod text;

// Writes the line for an input, and returns its length; if `out` has fewer than LINE bytes, nothing is written and 0 is
// returned. No `Option`: the clauses `length` and `bytes` promise the 0 and an unchanged slice.
pub fn line(input: &[u8], out: &mut [u8]) -> usize
    ensures length { result ≡ line_length input.now out.old }
    ensures bytes { out.new ≡ line_out input.now out.old }
{
    if out.len() < LINE {
        return 0;
    }
    match answer(input) {
        Ok(verdict) => write_verdict(out, verdict.truth, verdict.cost),
        Err(why) => write_refused(out, u32::from(why)),
    }
}
