// Worked questions and worked reruns; the file stdout has what this prints.

#![tactic(auto)]

use std::io;

mod asking;
mod charges;
mod limits;
mod ranges;
mod rerunning;

fn main(rt: HostRuntime) -> io::Result<()> {
    asking::in_one_sheet_only(&rt)?;
    asking::without_twice(&rt)?;
    asking::excluded_middle(&rt)?;
    asking::no_rows(&rt)?;
    asking::every_is_seven(&rt)?;
    asking::whole_rows(&rt)?;
    asking::bound_again(&rt)?;
    asking::refused(&rt)?;
    asking::refused_nodes(&rt)?;
    asking::short_list(&rt)?;
    ranges::by_node_and_word(&rt)?;
    ranges::no_rows(&rt)?;
    charges::identical_row(&rt)?;
    charges::no_identical_row(&rt)?;
    charges::after_a_fill(&rt)?;
    charges::two_columns(&rt)?;
    charges::every_value(&rt)?;
    charges::allowance(&rt)?;
    limits::deepest(&rt)?;
    limits::full(&rt)?;
    rerunning::settled(&rt)?;
    rerunning::lists_of_fills(&rt)?;
    rerunning::both_kinds(&rt)?;
    rerunning::words_in_use(&rt)?;
    rerunning::second_refused(&rt)?;
    rerunning::refused(&rt)?;
    rerunning::unlisted(&rt)
}
