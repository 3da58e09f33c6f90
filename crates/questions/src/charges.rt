// What an atom costs: 1 plus the rows of its sheet up to and including the first identical one, or all of them if none
// is identical. The table in the crate `readings` has the same cases.
use answer::ask::ask;
use instance::header::Header;
use std::io;
use substitute::substitute;
use worked::plots::{one_sheet, two_sheets};
use worked::show;

// Sheet 0 has the rows (5), (6), (m1), (6) and (9), sheet 1 the row (7).
const ROWS: [u32; 12] = [0, 5, 1, 7, 0, 6, 0, 1_000_001, 0, 6, 0, 9];

// Asks whether a cell is in a sheet.
fn stands(
    rt: &impl Print,
    name: &str,
    header: Header,
    plot: &[u32],
    sheet: u32,
    cell: u32,
    budget: u32,
) -> io::Result<()> {
    let query = [1u32, sheet, 2_000_000, 0, 0, 0, 0, 0];
    let mut list = [9u32; 8];
    let answer = ask(header, plot, &query, &[cell], &mut list, budget);
    show::asked(rt, name.as_bytes(), answer)
}

fn one(rt: &impl Print, name: &str, sheet: u32, cell: u32, budget: u32) -> io::Result<()> {
    stands(
        rt,
        name,
        two_sheets(1, 1, 12, 5, 1),
        &ROWS,
        sheet,
        cell,
        budget,
    )
}

// Asks after a fill of mark 1.
fn filled(rt: &impl Print, name: &str, by: u32, cell: u32) -> io::Result<()> {
    let mut plot = ROWS;
    let _ = substitute(two_sheets(1, 1, 12, 5, 1), &mut plot, 1, by);
    stands(rt, name, two_sheets(1, 1, 12, 5, 1), &plot, 0, cell, 100)
}

pub fn identical_row(rt: &impl Print) -> io::Result<()> {
    one(rt, "5, the first row", 0, 5, 100)?;
    one(rt, "6, twice after it", 0, 6, 100)?;
    one(rt, "9, the last row, after one that unifies", 0, 9, 100)?;
    one(rt, "m1, after two rows that unify", 0, 1_000_001, 100)?;
    one(rt, "7, the only row of sheet 1", 1, 7, 100)
}

pub fn no_identical_row(rt: &impl Print) -> io::Result<()> {
    one(rt, "8, which unifies with m1", 0, 8, 100)?;
    one(rt, "7, which is in sheet 1 alone", 0, 7, 100)?;
    one(rt, "6, which is in sheet 0 alone", 1, 6, 100)?;
    stands(
        rt,
        "5 of no rows",
        two_sheets(1, 1, 0, 0, 0),
        &[],
        0,
        5,
        100,
    )
}

pub fn after_a_fill(rt: &impl Print) -> io::Result<()> {
    filled(rt, "8 after m1 by 8", 8, 8)?;
    filled(rt, "m1 after m1 by 5", 5, 5)?;
    filled(rt, "8 after m1 by 5", 5, 8)
}

// Rows of two columns that agree with the row asked for in one column, or unify with it, come before it.
pub fn two_columns(rt: &impl Print) -> io::Result<()> {
    let query = [1u32, 0, 2_000_000, 7, 0, 0, 0, 0];
    let mut list = [9u32; 8];
    let answer = ask(
        one_sheet(2, 9, 3),
        &[0, 5, 6, 0, 5, 1_000_001, 0, 5, 7],
        &query,
        &[5],
        &mut list,
        100,
    );
    show::asked(rt, b"(5, 7) after (5, 6) and (5, m1)", answer)
}

// A question of four nodes that asks rows of both sheets for each value in turn: 5, 7, 6, m1 and 9.
pub fn every_value(rt: &impl Print) -> io::Result<()> {
    let nodes = [
        // every x0
        [7u32, 0, 1, 0, 0, 0, 0, 0],
        // node 2 or node 3
        [5, 2, 3, 0, 0, 0, 0, 0],
        // (x0) is in sheet 0
        [1, 0, 2_000_000, 0, 0, 0, 0, 0],
        // (x0) is in sheet 1
        [1, 1, 2_000_000, 0, 0, 0, 0, 0],
    ];
    let mut list = [9u32; 8];
    let answer = ask(
        two_sheets(1, 1, 12, 5, 1),
        &ROWS,
        nodes.as_flattened(),
        &[],
        &mut list,
        100,
    );
    show::asked(rt, b"every x: x in sheet 0 or in sheet 1", answer)
}

// The least allowance that suffices, and one look less.
pub fn allowance(rt: &impl Print) -> io::Result<()> {
    one(rt, "5 with 2 looks", 0, 5, 2)?;
    one(rt, "5 with 1 look", 0, 5, 1)?;
    one(rt, "8 with 6 looks", 0, 8, 6)?;
    one(rt, "8 with 5 looks", 0, 8, 5)
}
