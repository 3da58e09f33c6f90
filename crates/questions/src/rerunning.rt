// Run A, fills, run B: shows both runs' answers, and the plot, the candidate, A's list, B's list, the answers to the
// fills and the log afterwards.
use answer::way::Way;
use instance::header::Header;
use rerun::rerun::rerun;
use std::io;
use worked::plots::one_sheet;
use worked::show;

// Every x: x = 7.
const ALL_SEVEN: [u32; 16] = [7, 0, 1, 0, 0, 0, 0, 0, 2, 2_000_000, 7, 0, 0, 0, 0, 0];

// The candidate is in the sheet.
const STANDS: [u32; 8] = [1, 0, 2_000_000, 0, 0, 0, 0, 0];

// The rows (m1) and (8), and two words that are not in use.
const ROWS: [u32; 6] = [0, 1_000_001, 0, 8, 1_000_001, 5];

// Reruns a question; run A has a list of three words, and there is place for the answers to four fills.
fn shown(
    rt: &impl Print,
    way: Way,
    name: &str,
    header: Header,
    rows: [u32; 6],
    query: &[u32],
    cell: u32,
    budget: u32,
    fills: &[u32],
    log: &mut [u32],
    used: usize,
    list2: &mut [u32],
    budget2: u32,
) -> io::Result<()> {
    let mut plot = rows;
    let mut candidate = [cell];
    let mut list = [9u32; 3];
    let mut answers = [9u32; 12];
    let mut in_use = used;
    let reran = rerun(
        way,
        header,
        &mut plot,
        query,
        &mut candidate,
        &mut list,
        budget,
        fills,
        &mut answers,
        log,
        &mut in_use,
        list2,
        budget2,
    );
    show::reran(rt, name.as_bytes(), reran)?;
    show::words(rt, &plot)?;
    show::words(rt, &candidate)?;
    show::words(rt, &list)?;
    show::words(rt, list2)?;
    show::words(rt, &answers)?;
    show::log(rt, log)?;
    show::log_used(rt, in_use)
}

// Reruns a question on the rows (m1) and (8); run B has as long a list and as large an allowance as run A.
fn one(
    rt: &impl Print,
    way: Way,
    name: &str,
    query: &[u32],
    cell: u32,
    fills: &[u32],
    budget: u32,
) -> io::Result<()> {
    let mut log = [9u32; 3];
    let mut list2 = [9u32; 3];
    shown(
        rt,
        way,
        name,
        one_sheet(1, 4, 2),
        ROWS,
        query,
        cell,
        budget,
        fills,
        &mut log,
        0,
        &mut list2,
        budget,
    )
}

// Asks whether the cell is in the sheet, with an allowance that suffices if both rows are counted.
fn stands(rt: &impl Print, name: &str, cell: u32, fills: &[u32]) -> io::Result<()> {
    one(rt, Way::Listed, name, &STANDS, cell, fills, 3)
}

fn by_eight(rt: &impl Print, name: &str, cell: u32) -> io::Result<()> {
    stands(rt, name, cell, &[1, 8, 0])
}

// Reading 10; candidates with and without the mark that is filled; one whose row is the second before the fill and the
// first after it.
pub fn settled(rt: &impl Print) -> io::Result<()> {
    one(
        rt,
        Way::Listed,
        "every x: x = 7, m1 by 8",
        &ALL_SEVEN,
        0,
        &[1, 8, 0],
        100,
    )?;
    by_eight(rt, "m1 in the sheet, m1 by 8", 1_000_001)?;
    by_eight(rt, "m2 in the sheet, m1 by 8", 1_000_002)?;
    by_eight(rt, "5 in the sheet, m1 by 8", 5)?;
    by_eight(rt, "8 in the sheet, m1 by 8", 8)
}

// Fills that are refused with 29, 16 and 43, and then m1 by m2; no fill at all; one word and two words that are no
// fill.
pub fn lists_of_fills(rt: &impl Print) -> io::Result<()> {
    let mixed = [0u32, 8, 0, 1, 1_000_000, 0, 2, 8, 0, 1, 1_000_002, 0];
    stands(rt, "m1 in the sheet, four fills", 1_000_001, &mixed)?;
    stands(rt, "m1 in the sheet, no fill", 1_000_001, &[])?;
    stands(rt, "m1 in the sheet, a mark and no more", 1_000_001, &[1])?;
    stands(
        rt,
        "m1 in the sheet, a fill and two words more",
        1_000_001,
        &[1, 1_000_002, 0, 2, 8],
    )
}

// Logged fills and one that is not, on the rows (m1), (m2) and (m1) with a log of six words: the second, of two cells,
// finds three words left.
pub fn both_kinds(rt: &impl Print) -> io::Result<()> {
    let mut log = [9u32; 6];
    let mut list2 = [9u32; 3];
    shown(
        rt,
        Way::Listed,
        "m2 in the sheet, m2 by m3, m1 by 8 refused, m3 by m1, m1 by 8 without the log",
        one_sheet(1, 6, 3),
        [0, 1_000_001, 0, 1_000_002, 0, 1_000_001],
        &STANDS,
        1_000_002,
        4,
        &[2, 1_000_003, 1, 1, 8, 1, 3, 1_000_001, 7, 1, 8, 0],
        &mut log,
        0,
        &mut list2,
        4,
    )
}

// A logged fill of m1 by 8, with m1 as the candidate.
fn by_eight_logged(
    rt: &impl Print,
    way: Way,
    name: &str,
    used: usize,
    list2: &mut [u32],
    budget2: u32,
) -> io::Result<()> {
    let mut log = [9u32; 3];
    shown(
        rt,
        way,
        name,
        one_sheet(1, 4, 2),
        ROWS,
        &STANDS,
        1_000_001,
        3,
        &[1, 8, 1],
        &mut log,
        used,
        list2,
        budget2,
    )
}

// A logged fill that is made, and one that the log has no room for since more words are in use than it has.
pub fn words_in_use(rt: &impl Print) -> io::Result<()> {
    let mut list2 = [9u32; 3];
    by_eight_logged(rt, Way::Listed, "m1 by 8 in a fresh log", 0, &mut list2, 3)?;
    by_eight_logged(
        rt,
        Way::Listed,
        "m1 by 8, 4 words in use of 3",
        4,
        &mut list2,
        3,
    )
}

// Run B has a list or an allowance that is smaller than run A's; the fills are made all the same.
pub fn second_refused(rt: &impl Print) -> io::Result<()> {
    let mut short = [9u32];
    let mut list2 = [9u32; 3];
    by_eight_logged(
        rt,
        Way::Listed,
        "a list of 1 word for run B",
        0,
        &mut short,
        3,
    )?;
    by_eight_logged(rt, Way::Listed, "a budget of 1 for run B", 0, &mut list2, 1)
}

// 44, and refusals of run A; under 46 only A's list is written.
pub fn refused(rt: &impl Print) -> io::Result<()> {
    let many = [1u32, 8, 0, 1, 8, 0, 1, 8, 0, 1, 8, 0, 1, 8, 0];
    stands(rt, "no place for five answers", 5, &many)?;
    one(rt, Way::Listed, "no question", &[], 5, &[1, 8, 0], 3)?;
    one(rt, Way::Listed, "a budget of 2", &STANDS, 5, &[1, 8, 0], 2)
}

// Both runs without a list: no list is written, and run B is not refused for a list that is too short.
pub fn unlisted(rt: &impl Print) -> io::Result<()> {
    one(
        rt,
        Way::Unlisted,
        "every x: x = 7, m1 by 8, without a list",
        &ALL_SEVEN,
        0,
        &[1, 8, 0],
        100,
    )?;
    let mut short = [9u32];
    by_eight_logged(
        rt,
        Way::Unlisted,
        "m1 in the sheet, m1 by 8, without a list",
        0,
        &mut short,
        3,
    )?;
    by_eight_logged(
        rt,
        Way::Unlisted,
        "a budget of 1 for run B, without a list",
        0,
        &mut short,
        1,
    )
}
