// Worked inputs for the calls that read, change and write plots; the file stdout has what this prints.

#![tactic(auto)]

use std::io;

mod decoding;
mod encoding;
mod entering;
mod filling;

fn main(rt: HostRuntime) -> io::Result<()> {
    decoding::accepted(&rt)?;
    decoding::cut_short(&rt)?;
    decoding::refused(&rt)?;
    decoding::at_the_end(&rt)?;
    entering::rows(&rt)?;
    entering::refused(&rt)?;
    entering::unsound_headers(&rt)?;
    entering::unsound_words(&rt)?;
    entering::unsound_counts(&rt)?;
    entering::until_full(&rt)?;
    filling::accepted(&rt)?;
    filling::refused(&rt)?;
    filling::census(&rt)?;
    encoding::round_trip(&rt)?;
    encoding::refused(&rt)
}
