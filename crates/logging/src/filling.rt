// Logged fills that are made, and logged fills that are refused and leave plot and log as they were.
use super::plot::{ROWS, sound, unsound};
use super::steps::show_fill;
use instance::header::Header;
use std::io;
use undo_log::FRESH;
use worked::show;

// Two fills; the entry of the second follows that of the first, and fills the log.
pub fn two_entries(rt: &impl Print) -> io::Result<()> {
    let mut plot = ROWS;
    let mut log = [9u32; 7];
    show::heading(rt, b"before")?;
    show::words(rt, &plot)?;
    show::log(rt, &log)?;
    let mut used = FRESH;
    show_fill(
        rt,
        "mark 1 by 201",
        sound(),
        &mut plot,
        &mut log,
        &mut used,
        1,
        201,
    )?;
    show_fill(
        rt,
        "then mark 200 by 0",
        sound(),
        &mut plot,
        &mut log,
        &mut used,
        200,
        0,
    )
}

// Fills in a fresh copy of the rows.
fn fresh(
    rt: &impl Print,
    name: &str,
    header: Header,
    log: &mut [u32],
    used: usize,
    mark: u32,
    cell: u32,
) -> io::Result<()> {
    let mut plot = ROWS;
    let mut used = used;
    show_fill(rt, name, header, &mut plot, log, &mut used, mark, cell)
}

pub fn by_itself(rt: &impl Print) -> io::Result<()> {
    let mut log = [9u32; 7];
    fresh(rt, "mark 1 by itself", sound(), &mut log, 0, 1, 1_000_001)
}

// Words before the entry are not read: they need be no entries.
pub fn full_log(rt: &impl Print) -> io::Result<()> {
    let mut exact = [9u32; 4];
    let mut longer = [9u32; 6];
    fresh(
        rt,
        "two cells in a log of 4 words",
        sound(),
        &mut exact,
        0,
        1,
        201,
    )?;
    fresh(
        rt,
        "two cells behind 2 words of 6",
        sound(),
        &mut longer,
        2,
        1,
        1_000_200,
    )
}

// Fills with a fresh log of seven words.
fn turned_away(
    rt: &impl Print,
    name: &str,
    header: Header,
    mark: u32,
    cell: u32,
) -> io::Result<()> {
    let mut log = [9u32; 7];
    fresh(rt, name, header, &mut log, 0, mark, cell)
}

pub fn refused(rt: &impl Print) -> io::Result<()> {
    turned_away(rt, "an unsound plot, mark 0", unsound(), 0, 201)?;
    turned_away(rt, "mark 0 by 1,000,000", sound(), 0, 1_000_000)?;
    turned_away(rt, "mark 201", sound(), 201, 201)?;
    turned_away(rt, "mark 2 by 1,000,201", sound(), 2, 1_000_201)?;
    turned_away(rt, "mark 2, which stands in no cell", sound(), 2, 201)
}

// Fills a mark by 201, with a log of seven words of which `used` are in use.
fn crowded(rt: &impl Print, name: &str, used: usize, mark: u32) -> io::Result<()> {
    let mut log = [9u32; 7];
    fresh(rt, name, sound(), &mut log, used, mark, 201)
}

pub fn no_room(rt: &impl Print) -> io::Result<()> {
    let mut none = [9u32; 0];
    crowded(rt, "two cells with 3 words left", 4, 1)?;
    crowded(rt, "two cells with 8 words in use of 7", 8, 1)?;
    crowded(
        rt,
        "two cells with the most words in use",
        18_446_744_073_709_551_615,
        1,
    )?;
    crowded(rt, "mark 2 with 8 words in use of 7", 8, 2)?;
    fresh(
        rt,
        "one cell in a log of no words",
        sound(),
        &mut none,
        0,
        200,
        201,
    )
}
