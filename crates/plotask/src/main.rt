// The program: the input's bytes in, the line's bytes out.

#![tactic(auto)]

ghost use Rattle.std.specs.Prelude.{◌≤◌, length};

use line::{INPUT, LINE, line};
use std::io::{self, Read};

// Reads until the buffer is full, the input ends or a read fails, and returns how many of its bytes are read.
fn read_full<R: Read>(from: &mut R, buffer: &mut [u8]) -> usize
    ensures { result ≤ length buffer.new }
{
    let mut done = 0;
    // A `while`: a read may give fewer bytes than there is room for, so no range has its steps.
    while done < buffer.len() {
        match from.read(&mut buffer[done..]) {
            Ok(n) if n > 0 => done += n,
            _ => break,
        }
    }
    done
}

// Reads one byte past the limit, to detect input that is too long.
fn main(rt: HostRuntime) -> io::Result<()> {
    // an array with a count: there is no heap
    let mut input = [0u8; INPUT + 1];
    let n = read_full(&mut rt.stdin(), &mut input);
    let mut out = [0u8; LINE];
    let end = line(&input[..n], &mut out);
    rt.write_all(&out[..end])
}
