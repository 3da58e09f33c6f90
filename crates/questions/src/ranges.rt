// What some and every range over: the plot's values, and then the values that the question names.
use super::asking::listed;
use std::io;
use worked::plots::one_sheet;

// Some x: x = 3 and (7 = 5 or not 5 = 7). The left half of the and is node 5, so its 3 comes after the 7 and the 5 of
// node 3, in the right half.
const CROSSED: [[u32; 8]; 7] = [
    [6, 0, 1, 0, 0, 0, 0, 0],
    [4, 5, 2, 0, 0, 0, 0, 0],
    [5, 3, 4, 0, 0, 0, 0, 0],
    [2, 7, 5, 0, 0, 0, 0, 0],
    [3, 6, 0, 0, 0, 0, 0, 0],
    [2, 2_000_000, 3, 0, 0, 0, 0, 0],
    [2, 5, 7, 0, 0, 0, 0, 0],
];

// Asks that of one row (5).
fn crossed(rt: &impl Print, name: &str, list: &mut [u32], budget: u32) -> io::Result<()> {
    listed(
        rt,
        name,
        one_sheet(1, 2, 1),
        &[0, 5],
        CROSSED.as_flattened(),
        &[],
        list,
        budget,
    )
}

// By node and word the question names 7, 5, 3, 5, 7, and 5 stands in the plot. The list needs a word for each of them.
pub fn by_node_and_word(rt: &impl Print) -> io::Result<()> {
    let mut enough = [9u32; 6];
    crossed(
        rt,
        "row (5), the question names 7, 5, 3, 5, 7",
        &mut enough,
        100,
    )?;
    let mut spent = [9u32; 6];
    crossed(rt, "with 4 looks", &mut spent, 4)?;
    let mut short = [9u32; 5];
    crossed(
        rt,
        "a list of 5 words for 1 cell and 5 terms",
        &mut short,
        100,
    )
}

// A value that stands in the question alone.
pub fn no_rows(rt: &impl Print) -> io::Result<()> {
    let query = [6u32, 0, 1, 0, 0, 0, 0, 0, 2, 2_000_000, 3, 0, 0, 0, 0, 0];
    let mut list = [9u32; 2];
    listed(
        rt,
        "no rows: some x, x = 3",
        one_sheet(1, 0, 0),
        &[],
        &query,
        &[],
        &mut list,
        1,
    )
}
