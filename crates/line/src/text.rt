// The text of the line: its word and its number.
ghost use Rattle.std.specs.Prelude.{◌≡◌, ◌+◌, ◌≤◌, length};
ghost use Rattle.calculus.specs.Overwrite.{overwrite};
ghost use Rattle.decimal.specs.Decimal.{max_digits};
ghost use Rattle.line.specs.Text.{line_with, verdict_line, refused_line, max_line};

use calculus::truth::Truth;
use decimal::decimal;

// Writes a word, then a number and a line feed, and returns the line's length.
// By hand: there is no heap, and of a text of fixed size std says only that what is written may be cut.
fn write_line(out: &mut [u8], word: &[u8], n: u32) -> usize
    requires { length word.now + (max_digits + 1) ≤ length out.old }
    ensures length { result ≡ length (line_with word.now n) }
    ensures bytes { out.new ≡ overwrite (line_with word.now n) out.old }
{
    let at = word.len();
    out[..at].copy_from_slice(word);
    let end = at + decimal(&mut out[at..], n);
    out[end] = b'\n';
    end + 1
}

pub fn write_verdict(out: &mut [u8], truth: Truth, cost: u32) -> usize
    requires { max_line ≤ length out.old }
    ensures length { result ≡ length (verdict_line truth cost) }
    ensures bytes { out.new ≡ overwrite (verdict_line truth cost) out.old }
{
    match truth {
        Truth::True => write_line(out, b"true ", cost),
        Truth::False => write_line(out, b"false ", cost),
        Truth::Unknown => write_line(out, b"unknown ", cost),
    }
}

pub fn write_refused(out: &mut [u8], why: u32) -> usize
    requires { max_line ≤ length out.old }
    ensures length { result ≡ length (refused_line why) }
    ensures bytes { out.new ≡ overwrite (refused_line why) out.old }
{
    write_line(out, b"refused ", why)
}
