// The calls that use the log, each with what it returned, and the plot and the log afterwards. They take what the calls
// take, one by one, so that a reader sees each call as it is made.
use instance::header::Header;
use std::io;
use substitute_logged::substitute_logged;
use undo::undo;
use worked::show;

// Fills, and moves the log's words in use.
pub fn show_fill(
    rt: &impl Print,
    name: &str,
    header: Header,
    plot: &mut [u32],
    log: &mut [u32],
    used: &mut usize,
    mark: u32,
    cell: u32,
) -> io::Result<()> {
    let answer = substitute_logged(header, plot, log, used, mark, cell);
    show::logged(rt, name.as_bytes(), answer, *used)?;
    show::words(rt, plot)?;
    show::log(rt, log)
}

// Undoes, and moves the log's words in use.
pub fn show_undo(
    rt: &impl Print,
    name: &str,
    header: Header,
    plot: &mut [u32],
    log: &[u32],
    used: &mut usize,
) -> io::Result<()> {
    let answer = undo(header, plot, log, used);
    show::logged(rt, name.as_bytes(), answer, *used)?;
    show::words(rt, plot)?;
    show::log(rt, log)
}
