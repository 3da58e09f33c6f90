// Worked inputs for the calls that use the undo log; the file stdout has what this prints.

#![tactic(auto)]

use std::io;

mod filling;
mod history;
mod plot;
mod steps;
mod undoing;

fn main(rt: HostRuntime) -> io::Result<()> {
    filling::two_entries(&rt)?;
    filling::by_itself(&rt)?;
    filling::full_log(&rt)?;
    filling::refused(&rt)?;
    filling::no_room(&rt)?;
    undoing::latest(&rt)?;
    undoing::by_the_letter(&rt)?;
    undoing::refused(&rt)?;
    undoing::bad_words_in_use(&rt)?;
    undoing::bad_entries(&rt)?;
    history::history(&rt)
}
