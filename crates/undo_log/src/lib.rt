// The undo log (document 02, request 1: the log of noted fills): words that the caller lends, of which the first are in
// use. What the calls that start it fresh return.
//
// The words in use are a number beside the slice, and no part of a struct: C lends the two apart.

#![tactic(auto)]

use instance::header::Header;

// the words in use of a fresh log
pub const FRESH: usize = 0;

// What an accepted call returns that fills an instance anew and starts its log fresh: the header, and the log's words
// in use.
#[derive(Clone, Copy)]
pub struct Restarted {
    pub header: Header,
    pub log: usize,
}
