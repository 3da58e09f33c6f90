// Fills, and the census after them.
use instance::header::Header;
use null_counts::null_counts;
use std::io;
use substitute::substitute;
use worked::plots::{one_sheet, sheets};
use worked::show;

// The rows (m200, m1) and (m1, 5), and two words that are not in use.
const ROWS: [u32; 8] = [0, 1_000_200, 1_000_001, 0, 1_000_001, 5, 1_000_001, 7];

// Fills in a fresh copy of the rows, and shows the answer; if accepted, also the words, the counts of marks 1, 2 and
// 200, and the word after the counts.
fn fill(rt: &impl Print, name: &str, mark: u32, cell: u32) -> io::Result<()> {
    let mut plot = ROWS;
    let header = one_sheet(2, 6, 2);
    let answer = substitute(header, &mut plot, mark, cell);
    show::answer(rt, name.as_bytes(), answer)?;
    if answer.is_ok() {
        show::words(rt, &plot)?;
        let mut counts = [9u32; 201];
        let _ = null_counts(header, &plot, &mut counts);
        let some = [counts[0], counts[1], counts[199], counts[200]];
        show::words(rt, &some)?;
    }
    Ok(())
}

pub fn accepted(rt: &impl Print) -> io::Result<()> {
    fill(rt, "mark 1 by 201", 1, 201)?;
    fill(rt, "mark 1 by mark 2", 1, 1_000_002)?;
    fill(rt, "mark 1 by mark 200", 1, 1_000_200)?;
    fill(rt, "mark 1 by itself", 1, 1_000_001)?;
    fill(rt, "mark 200 by 0", 200, 0)
}

pub fn refused(rt: &impl Print) -> io::Result<()> {
    fill(rt, "mark 0", 0, 201)?;
    fill(rt, "mark 201", 201, 201)?;
    fill(rt, "mark 1 by 1,000,000", 1, 1_000_000)?;
    fill(rt, "mark 1 by 1,000,201", 1, 1_000_201)?;
    fill(rt, "mark 2, which stands in no cell", 2, 201)?;
    unsound(rt)
}

// A fill of a plot whose last row lacks a cell.
fn unsound(rt: &impl Print) -> io::Result<()> {
    let mut plot = ROWS;
    let answer = substitute(one_sheet(2, 5, 2), &mut plot, 1, 201);
    show::answer(rt, b"a fill of an unsound plot", answer)?;
    show::words(rt, &plot)
}

// Takes a census of the rows.
fn count(rt: &impl Print, name: &str, header: Header, counts: &mut [u32]) -> io::Result<()> {
    let plot = ROWS;
    let answer = null_counts(header, &plot, counts);
    show::answer(rt, name.as_bytes(), answer)
}

pub fn census(rt: &impl Print) -> io::Result<()> {
    let mut short = [9u32; 199];
    let mut counts = [9u32; 200];
    let sheet = one_sheet(2, 6, 2);
    let none = sheets(0, [2, 0, 0, 0, 0, 0, 0, 0], 6, [2, 0, 0, 0, 0, 0, 0, 0]);
    count(rt, "a census into 199 words", sheet, &mut short)?;
    count(rt, "a census of an unsound plot", none, &mut counts)?;
    count(rt, "a census into 200 words", sheet, &mut counts)
}
