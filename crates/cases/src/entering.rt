// Rows that are entered, and rows and plots that are refused.
use insert::insert;
use instance::header::Header;
use std::io;
use worked::plots::{one_sheet, sheets, two_sheets};
use worked::show;

// Enters a row, and shows the answer.
fn enter(
    rt: &impl Print,
    name: &str,
    header: &mut Header,
    plot: &mut [u32],
    relation: u32,
    cells: &[u32],
) -> io::Result<()> {
    let answer = insert(header, plot, relation, cells);
    show::answer(rt, name.as_bytes(), answer)
}

// Enters a row of one cell into sheet 0.
fn enter_cell(
    rt: &impl Print,
    name: &str,
    header: &mut Header,
    plot: &mut [u32],
    cell: u32,
) -> io::Result<()> {
    enter(rt, name, header, plot, 0, &[cell])
}

pub fn rows(rt: &impl Print) -> io::Result<()> {
    let mut plot = [7u32; 7];
    let mut header = two_sheets(1, 2, 0, 0, 0);
    let pair = [1_000_200u32, 1_000_001];
    enter_cell(rt, "a row of one cell", &mut header, &mut plot, 999_999)?;
    enter(rt, "a row of two marks", &mut header, &mut plot, 1, &pair)?;
    show::plot(rt, header, &plot)?;
    enter_cell(
        rt,
        "two words more, which fill the slice",
        &mut header,
        &mut plot,
        999_999,
    )?;
    enter_cell(rt, "no room for another", &mut header, &mut plot, 999_999)?;
    show::plot(rt, header, &plot)
}

// Enters a row that a plot of two empty sheets refuses, and shows the words afterwards.
fn turned_away(rt: &impl Print, name: &str, relation: u32, cells: &[u32]) -> io::Result<()> {
    let mut plot = [7u32; 4];
    let mut header = two_sheets(1, 2, 0, 0, 0);
    enter(rt, name, &mut header, &mut plot, relation, cells)?;
    show::words(rt, &plot)
}

pub fn refused(rt: &impl Print) -> io::Result<()> {
    let one = [5u32];
    let low = [1_000_000u32];
    let high = [1_000_201u32];
    let none = [5u32; 0];
    turned_away(rt, "sheet 2 of two", 2, &one)?;
    turned_away(rt, "one cell for two columns", 1, &one)?;
    turned_away(rt, "no cell for one column", 0, &none)?;
    turned_away(rt, "1,000,000 entered", 0, &low)?;
    turned_away(rt, "1,000,201 entered", 0, &high)
}

// Enters a row of one cell into a plot with the given header and words.
fn unsound(
    rt: &impl Print,
    name: &str,
    relations: u32,
    arities: [u32; 8],
    used: u32,
    counts: [u32; 8],
    words: [u32; 4],
) -> io::Result<()> {
    let mut plot = words;
    let mut header = sheets(relations, arities, used, counts);
    enter_cell(rt, name, &mut header, &mut plot, 5)
}

pub fn unsound_headers(rt: &impl Print) -> io::Result<()> {
    let none = [0u32; 8];
    let words = [0u32; 4];
    unsound(rt, "no sheet", 0, [0, 0, 0, 0, 0, 0, 0, 0], 0, none, words)?;
    unsound(
        rt,
        "nine sheets",
        9,
        [1, 1, 1, 1, 1, 1, 1, 1],
        0,
        none,
        words,
    )?;
    unsound(
        rt,
        "a sheet of no column",
        1,
        [0, 0, 0, 0, 0, 0, 0, 0],
        0,
        none,
        words,
    )?;
    unsound(
        rt,
        "a sheet of seven columns",
        1,
        [7, 0, 0, 0, 0, 0, 0, 0],
        0,
        none,
        words,
    )?;
    unsound(
        rt,
        "columns of a sheet that does not exist",
        1,
        [1, 0, 0, 0, 0, 0, 0, 1],
        0,
        none,
        words,
    )?;
    unsound(
        rt,
        "more words in use than the slice has",
        1,
        [1, 0, 0, 0, 0, 0, 0, 0],
        5,
        none,
        words,
    )
}

pub fn unsound_words(rt: &impl Print) -> io::Result<()> {
    let arities = [1u32, 2, 0, 0, 0, 0, 0, 0];
    let none = [0u32; 8];
    let second = [0u32, 1, 0, 0, 0, 0, 0, 0];
    unsound(
        rt,
        "a sheet number too high",
        2,
        arities,
        2,
        none,
        [2, 5, 0, 0],
    )?;
    unsound(
        rt,
        "a word that is no cell",
        2,
        arities,
        2,
        [1, 0, 0, 0, 0, 0, 0, 0],
        [0, 1_000_000, 0, 0],
    )?;
    unsound(
        rt,
        "a row that lacks its last cell",
        2,
        arities,
        2,
        second,
        [1, 5, 0, 0],
    )?;
    unsound(
        rt,
        "the same row, whole",
        2,
        arities,
        3,
        second,
        [1, 5, 5, 0],
    )
}

// A plot whose words are sound, with counts that are not.
pub fn unsound_counts(rt: &impl Print) -> io::Result<()> {
    let arities = [1u32, 2, 0, 0, 0, 0, 0, 0];
    let words = [1u32, 5, 5, 0];
    unsound(
        rt,
        "a row that is not counted",
        2,
        arities,
        3,
        [0, 0, 0, 0, 0, 0, 0, 0],
        words,
    )?;
    unsound(
        rt,
        "a row counted twice",
        2,
        arities,
        3,
        [0, 2, 0, 0, 0, 0, 0, 0],
        words,
    )?;
    unsound(
        rt,
        "a row counted in another sheet",
        2,
        arities,
        3,
        [1, 0, 0, 0, 0, 0, 0, 0],
        words,
    )?;
    unsound(
        rt,
        "a count of a sheet that does not exist",
        2,
        arities,
        3,
        [0, 1, 0, 0, 0, 0, 0, 1],
        words,
    )
}

// Enters rows of two words until 4,096 words are in use, and then one more.
pub fn until_full(rt: &impl Print) -> io::Result<()> {
    let mut plot = [0u32; 4098];
    let mut header = one_sheet(1, 0, 0);
    for _ in 0..2047 {
        let _ = insert(&mut header, &mut plot, 0, &[5]);
    }
    enter_cell(
        rt,
        "the row that makes 4,096 words",
        &mut header,
        &mut plot,
        5,
    )?;
    enter_cell(rt, "one row more", &mut header, &mut plot, 5)?;
    show::header(rt, header)
}
