// Undos that are made, and undos that are refused and leave the plot as it was. No undo changes the log's words.
use super::plot::{ROWS, sound, unsound};
use super::steps::show_undo;
use instance::header::Header;
use std::io;
use worked::show;

// Takes back mark 200 by 0 and then mark 1 by 201, the fills that made these words.
pub fn latest(rt: &impl Print) -> io::Result<()> {
    let mut plot = [0u32, 0, 201, 1, 201, 1, 5, 1_000_001, 7];
    let log = [2u32, 4, 1, 2, 1, 200, 1];
    show::heading(rt, b"after both fills")?;
    show::words(rt, &plot)?;
    show::log(rt, &log)?;
    let mut used = 7;
    show_undo(rt, "undo", sound(), &mut plot, &log, &mut used)?;
    show_undo(rt, "undo again", sound(), &mut plot, &log, &mut used)
}

// Undoes in a fresh copy of the rows.
fn fresh(rt: &impl Print, name: &str, header: Header, log: &[u32], used: usize) -> io::Result<()> {
    let mut plot = ROWS;
    let mut used = used;
    show_undo(rt, name, header, &mut plot, log, &mut used)
}

// Entries that no fill of these rows writes, and that are well formed all the same.
pub fn by_the_letter(rt: &impl Print) -> io::Result<()> {
    fresh(rt, "an entry of no cells", sound(), &[9, 9, 3, 0], 4)?;
    fresh(rt, "a place twice", sound(), &[6, 6, 3, 2, 9], 4)?;
    fresh(rt, "places that fall", sound(), &[6, 4, 1, 3, 3, 9], 5)?;
    fresh(rt, "a cell that holds mark 200", sound(), &[9, 1, 1, 1], 4)?;
    fresh(rt, "a cell that holds 5", sound(), &[6, 200, 1], 3)
}

pub fn refused(rt: &impl Print) -> io::Result<()> {
    fresh(
        rt,
        "an unsound plot, no word in use",
        unsound(),
        &[2, 4, 1, 2],
        0,
    )?;
    fresh(rt, "no word in use", sound(), &[2, 4, 1, 2], 0)?;
    fresh(rt, "no word in use of none", sound(), &[], 0)
}

pub fn bad_words_in_use(rt: &impl Print) -> io::Result<()> {
    fresh(rt, "5 words in use of 4", sound(), &[2, 4, 1, 2], 5)?;
    fresh(
        rt,
        "the most words in use",
        sound(),
        &[2, 4, 1, 2],
        18_446_744_073_709_551_615,
    )?;
    fresh(rt, "one word in use", sound(), &[0, 1, 0], 1)?;
    fresh(
        rt,
        "4 words in use, and an entry of 5",
        sound(),
        &[2, 4, 1, 3],
        4,
    )?;
    fresh(
        rt,
        "an entry of the most cells",
        sound(),
        &[2, 4, 1, 4_294_967_295],
        4,
    )
}

// Undoes an entry of two cells.
fn entry(rt: &impl Print, name: &str, first: u32, second: u32, mark: u32) -> io::Result<()> {
    let log = [first, second, mark, 2];
    fresh(rt, name, sound(), &log, 4)
}

pub fn bad_entries(rt: &impl Print) -> io::Result<()> {
    entry(rt, "mark 0", 2, 4, 0)?;
    entry(rt, "mark 201", 2, 4, 201)?;
    entry(rt, "the first sheet number's place", 0, 4, 1)?;
    entry(rt, "a later sheet number's place", 2, 5, 1)?;
    entry(rt, "a place at the words in use", 2, 7, 1)?;
    entry(rt, "a place at the slice's end", 2, 9, 1)
}
