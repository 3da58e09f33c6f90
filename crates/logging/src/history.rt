// A history step by step, each step with the plot, the log and their words in use afterwards.
use super::steps::{show_fill, show_undo};
use insert::insert;
use instance::header::Header;
use std::io;
use undo_log::FRESH;
use worked::plots::two_sheets;
use worked::show;

// Fills, and moves the log's words in use.
fn fill(
    rt: &impl Print,
    name: &str,
    header: Header,
    plot: &mut [u32],
    log: &mut [u32],
    used: &mut usize,
    mark: u32,
    cell: u32,
) -> io::Result<()> {
    show_fill(rt, name, header, plot, log, used, mark, cell)?;
    show::header(rt, header)
}

// Undoes, and moves the log's words in use.
fn take_back(
    rt: &impl Print,
    name: &str,
    header: Header,
    plot: &mut [u32],
    log: &[u32],
    used: &mut usize,
) -> io::Result<()> {
    show_undo(rt, name, header, plot, log, used)?;
    show::header(rt, header)
}

fn state(
    rt: &impl Print,
    header: Header,
    plot: &[u32],
    log: &[u32],
    used: usize,
) -> io::Result<()> {
    show::words(rt, plot)?;
    show::log(rt, log)?;
    show::log_used(rt, used)?;
    show::header(rt, header)
}

// Enters a row in sheet 0. The call is not given the log.
fn enter(
    rt: &impl Print,
    name: &str,
    header: &mut Header,
    plot: &mut [u32],
    log: &[u32],
    used: usize,
    cells: &[u32],
) -> io::Result<()> {
    let answer = insert(header, plot, 0, cells);
    show::answer(rt, name.as_bytes(), answer)?;
    state(rt, *header, plot, log, used)
}

// A fill that makes the log full, and one that it has no room for.
fn fill_log(
    rt: &impl Print,
    header: Header,
    plot: &mut [u32],
    log: &mut [u32],
    used: &mut usize,
) -> io::Result<()> {
    fill(rt, "mark 1 by 8", header, plot, log, used, 1, 8)?;
    fill(rt, "mark 2 by 8", header, plot, log, used, 2, 8)
}

// The undos until no word is in use, and one more.
fn take_all_back(
    rt: &impl Print,
    header: Header,
    plot: &mut [u32],
    log: &[u32],
    used: &mut usize,
) -> io::Result<()> {
    take_back(rt, "undo", header, plot, log, used)?;
    take_back(rt, "undo again", header, plot, log, used)?;
    take_back(rt, "undo once more", header, plot, log, used)
}

// The row entered between the fills holds the first fill's mark and its cell: the second fill finds the one, and no
// undo touches the other.
pub fn history(rt: &impl Print) -> io::Result<()> {
    let mut plot = [0u32, 1_000_002, 1_000_001, 1, 1_000_001, 7, 7, 7];
    let mut log = [9u32; 7];
    let mut used = FRESH;
    let row = [1_000_001u32, 1_000_002];
    let mut header = two_sheets(2, 1, 5, 1, 1);
    show::heading(rt, b"the start")?;
    state(rt, header, &plot, &log, used)?;
    fill(
        rt,
        "mark 1 by mark 2",
        header,
        &mut plot,
        &mut log,
        &mut used,
        1,
        1_000_002,
    )?;
    enter(
        rt,
        "(m1, m2) entered",
        &mut header,
        &mut plot,
        &log,
        used,
        &row,
    )?;
    fill_log(rt, header, &mut plot, &mut log, &mut used)?;
    take_all_back(rt, header, &mut plot, &log, &mut used)
}
