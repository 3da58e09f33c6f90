// Questions at the limits.
ghost use Rattle.std.specs.Prelude.{◌≡◌, ◌≤◌, length};

use answer::ask::ask;
use answer::unlisted::ask_unlisted;
use std::io;
use worked::plots::one_sheet;
use worked::show;

// n nodes "every x0", each with the next node as its child, and then a node that begins with the given words.
fn chain(n: usize, last: [u32; 3]) -> [u32; 808]
    requires { n ≤ 100 }
    ensures { length result ≡ 808 }
{
    let mut query = [0u32; 808];
    // By number: each node names the next one.
    for i in 0..n {
        let at = i * 8;
        query[at] = 7;
        query[at + 2] = (i + 1) as u32;
    }
    let end = n * 8;
    query[end..end + 3].copy_from_slice(&last);
    query
}

// Asks that question about a sheet of one column, by both ways, and shows the answers.
fn chained(
    rt: &impl Print,
    name: &str,
    n: usize,
    last: [u32; 3],
    used: u32,
    plot: &[u32],
    list: &mut [u32],
    budget: u32,
) -> io::Result<()>
    requires { n ≤ 100 }
{
    let query = chain(n, last);
    let answer = ask(
        one_sheet(1, used, used / 2),
        plot,
        &query[..n * 8 + 8],
        &[],
        list,
        budget,
    );
    show::asked(rt, name.as_bytes(), answer)?;
    let again = ask_unlisted(
        one_sheet(1, used, used / 2),
        plot,
        &query[..n * 8 + 8],
        &[],
        budget,
    );
    show::asked(rt, b"  without a list", again)
}

// x0 = x0
const EQUAL: [u32; 3] = [2, 2_000_000, 2_000_000];

// 99 quantifiers over one value make the deepest question; one more makes it too long.
pub fn deepest(rt: &impl Print) -> io::Result<()> {
    let plot = [0u32, 5];
    let mut list = [9u32; 1];
    chained(rt, "100 nodes", 99, EQUAL, 2, &plot, &mut list, 1)?;
    chained(rt, "808 words", 100, EQUAL, 2, &plot, &mut list, 1)
}

// The row (0) is in sheet 0.
const ZERO: [u32; 3] = [1, 0, 0];

// The row (1) is in sheet 0.
const ONE: [u32; 3] = [1, 0, 1];

// A full plot of 2,048 rows: only the last is (1), and all the others are (0). An atom takes 2,049 looks for the one,
// and 2 for the other. tests/limit.c shows what happens at the limit of 32 bits.
pub fn full(rt: &impl Print) -> io::Result<()> {
    let mut plot = [0u32; 4096];
    plot[4095] = 1;
    let mut list = [9u32; 2049];
    chained(
        rt,
        "2 to the 12 atoms of 2,049 looks",
        12,
        ONE,
        4096,
        &plot,
        &mut list,
        8_392_704,
    )?;
    chained(
        rt,
        "with one look less",
        12,
        ONE,
        4096,
        &plot,
        &mut list,
        8_392_703,
    )?;
    chained(
        rt,
        "2 to the 21 atoms of 2 looks",
        21,
        ZERO,
        4096,
        &plot,
        &mut list,
        4_294_967_295,
    )?;
    let some = [list[0], list[1], list[2], list[2048]];
    show::words(rt, &some)
}
