// Questions: the readings, cases in which a wrong program would say something else, and the refusals.
ghost use Rattle.std.specs.Prelude.{◌≤◌, length};

use answer::ask::ask;
use answer::unlisted::ask_unlisted;
use instance::header::Header;
use std::io;
use substitute::substitute;
use worked::plots::{one_sheet, two_sheets};
use worked::show;

const SOME: u32 = 6;

const EVERY: u32 = 7;

// Asks a question, and shows the answer and the working list afterwards; then asks it without a list. The parameters,
// here and below, are those of the call that is shown, one by one.
pub fn listed(
    rt: &impl Print,
    name: &str,
    header: Header,
    plot: &[u32],
    query: &[u32],
    candidate: &[u32],
    list: &mut [u32],
    budget: u32,
) -> io::Result<()> {
    let answer = ask(header, plot, query, candidate, list, budget);
    show::asked(rt, name.as_bytes(), answer)?;
    show::words(rt, list)?;
    let again = ask_unlisted(header, plot, query, candidate, budget);
    show::asked(rt, b"  without a list", again)
}

// The same, with a list that is longer than any plot here needs.
fn asked(
    rt: &impl Print,
    name: &str,
    header: Header,
    plot: &[u32],
    query: &[u32],
    candidate: &[u32],
    budget: u32,
) -> io::Result<()> {
    let mut list = [9u32; 4];
    listed(rt, name, header, plot, query, candidate, &mut list, budget)
}

// Asks a question of these nodes.
fn one(
    rt: &impl Print,
    name: &str,
    header: Header,
    plot: &[u32],
    nodes: &[[u32; 8]],
    candidate: &[u32],
    budget: u32,
) -> io::Result<()>
    requires { length nodes.now ≤ 7 }
{
    asked(
        rt,
        name,
        header,
        plot,
        nodes.as_flattened(),
        candidate,
        budget,
    )
}

// Asks whether some or every x equals the term: a question of two nodes.
fn quantified(
    rt: &impl Print,
    name: &str,
    header: Header,
    plot: &[u32],
    kind: u32,
    x: u32,
    term: u32,
    candidate: &[u32],
    budget: u32,
) -> io::Result<()>
    requires { x ≤ 15 }
{
    let equal = 2_000_000 + x;
    let query = [kind, x, 1, 0, 0, 0, 0, 0, 2, equal, term, 0, 0, 0, 0, 0];
    asked(rt, name, header, plot, &query, candidate, budget)
}

// Sheet 0 has the row (201), sheet 1 the row (m1).
const CHANNELS: [u32; 4] = [0, 201, 1, 1_000_001];

fn channels(rt: &impl Print, name: &str, query: &[u32], candidate: &[u32]) -> io::Result<()> {
    asked(
        rt,
        name,
        two_sheets(1, 1, 4, 1, 1),
        &CHANNELS,
        query,
        candidate,
        0,
    )
}

// The candidate is in sheet 0 and not in sheet 1.
const WITHOUT: [[u32; 8]; 4] = [
    [4, 1, 2, 0, 0, 0, 0, 0],
    [1, 0, 2_000_000, 0, 0, 0, 0, 0],
    [3, 3, 0, 0, 0, 0, 0, 0],
    [1, 1, 2_000_000, 0, 0, 0, 0, 0],
];

fn without(rt: &impl Print, name: &str, plot: &[u32], budget: u32) -> io::Result<()> {
    one(
        rt,
        name,
        two_sheets(1, 1, 4, 1, 1),
        plot,
        &WITHOUT,
        &[201],
        budget,
    )
}

// Asks that question within a budget.
fn within(rt: &impl Print, name: &str, budget: u32) -> io::Result<()> {
    without(rt, name, &CHANNELS, budget)
}

// Asks that question after a fill of mark 1.
fn filled(rt: &impl Print, name: &str, cell: u32) -> io::Result<()> {
    let mut plot = CHANNELS;
    let _ = substitute(two_sheets(1, 1, 4, 1, 1), &mut plot, 1, cell);
    without(rt, name, &plot, 100)
}

// Reading 6, before and after fills, and reading 11.
pub fn in_one_sheet_only(rt: &impl Print) -> io::Result<()> {
    within(rt, "201 in sheet 0 and not in 1", 100)?;
    filled(rt, "after m1 by 201", 201)?;
    filled(rt, "after m1 by 202", 202)?;
    within(rt, "with 3 looks", 3)?;
    within(rt, "with 4 looks", 4)
}

// Reading 7: sheet 0 without (sheet 0 without sheet 1).
pub fn without_twice(rt: &impl Print) -> io::Result<()> {
    let nodes = [
        [4, 1, 2, 0, 0, 0, 0, 0],
        [1, 0, 2_000_000, 0, 0, 0, 0, 0],
        [3, 3, 0, 0, 0, 0, 0, 0],
        [4, 4, 5, 0, 0, 0, 0, 0],
        [1, 0, 2_000_000, 0, 0, 0, 0, 0],
        [3, 6, 0, 0, 0, 0, 0, 0],
        [1, 1, 2_000_000, 0, 0, 0, 0, 0],
    ];
    one(
        rt,
        "201 in sheet 0 and not (in sheet 0 and not in 1)",
        two_sheets(1, 1, 4, 1, 1),
        &CHANNELS,
        &nodes,
        &[201],
        100,
    )
}

// Reading 8: some x in the sheet and (x = 0 or not x = 0). An unknown does not stop the and.
pub fn excluded_middle(rt: &impl Print) -> io::Result<()> {
    let nodes = [
        [6, 0, 1, 0, 0, 0, 0, 0],
        [4, 2, 3, 0, 0, 0, 0, 0],
        [1, 0, 2_000_000, 0, 0, 0, 0, 0],
        [5, 4, 5, 0, 0, 0, 0, 0],
        [2, 2_000_000, 0, 0, 0, 0, 0, 0],
        [3, 6, 0, 0, 0, 0, 0, 0],
        [2, 2_000_000, 0, 0, 0, 0, 0, 0],
    ];
    one(
        rt,
        "some x in the sheet and (x = 0 or not x = 0)",
        one_sheet(1, 2, 1),
        &[0, 1_000_001],
        &nodes,
        &[],
        100,
    )
}

// Asks whether x3 = x3 for some or every x3 of no rows, with an allowance of 0.
fn of_no_rows(rt: &impl Print, name: &str, kind: u32) -> io::Result<()> {
    quantified(
        rt,
        name,
        one_sheet(1, 0, 0),
        &[],
        kind,
        3,
        2_000_003,
        &[],
        0,
    )
}

// Reading 9.
pub fn no_rows(rt: &impl Print) -> io::Result<()> {
    of_no_rows(rt, "no rows: some x, x = x", SOME)?;
    of_no_rows(rt, "no rows: every x, x = x", EVERY)
}

// Asks whether every x is 7, in a sheet of two rows of one cell.
fn sevens(rt: &impl Print, name: &str, plot: &[u32]) -> io::Result<()> {
    quantified(rt, name, one_sheet(1, 4, 2), plot, EVERY, 0, 7, &[], 100)
}

// Reading 10: the values come in their order, each once.
pub fn every_is_seven(rt: &impl Print) -> io::Result<()> {
    let mut plot = [0u32, 1_000_001, 0, 8];
    sevens(rt, "rows (m1), (8): every x, x = 7", &plot)?;
    let _ = substitute(one_sheet(1, 4, 2), &mut plot, 1, 8);
    sevens(rt, "after m1 by 8", &plot)
}

// Asks whether the candidate is in a sheet of two columns with one row.
fn pair(rt: &impl Print, name: &str, row: [u32; 2], candidate: [u32; 2]) -> io::Result<()> {
    let plot = [0u32, row[0], row[1]];
    let query = [1u32, 0, 2_000_000, 2_000_001, 0, 0, 0, 0];
    asked(rt, name, one_sheet(2, 3, 1), &plot, &query, &candidate, 100)
}

// Rows are unified as a whole: (1, m1) and (m1, 2) cannot be the same row.
pub fn whole_rows(rt: &impl Print) -> io::Result<()> {
    pair(
        rt,
        "(1, m1) where (m1, 2) stands",
        [1_000_001, 2],
        [1, 1_000_001],
    )?;
    pair(
        rt,
        "(1, 2) where (m1, m2) stands",
        [1_000_001, 1_000_002],
        [1, 2],
    )?;
    pair(
        rt,
        "(m1, m1) where (m1, m1) stands",
        [1_000_001, 1_000_001],
        [1_000_001, 1_000_001],
    )?;
    pair(rt, "(m7, 2) where (1, 2) stands", [1, 2], [1_000_007, 2])
}

// The nearest quantifier binds, even if the candidate has the variable.
pub fn bound_again(rt: &impl Print) -> io::Result<()> {
    let header = one_sheet(1, 4, 2);
    let plot = [0u32, 1, 0, 2];
    quantified(
        rt,
        "some x: x = 2, with x = 5 in the candidate",
        header,
        &plot,
        SOME,
        0,
        2,
        &[5],
        100,
    )?;
    let again = [
        [7, 0, 1, 0, 0, 0, 0, 0],
        [4, 2, 3, 0, 0, 0, 0, 0],
        [6, 0, 4, 0, 0, 0, 0, 0],
        [3, 5, 0, 0, 0, 0, 0, 0],
        [2, 2_000_000, 2, 0, 0, 0, 0, 0],
        [2, 2_000_000, 2, 0, 0, 0, 0, 0],
    ];
    one(
        rt,
        "every x: (some x: x = 2) and not x = 2",
        header,
        &plot,
        &again,
        &[],
        100,
    )
}

// Asks n words that are no valid question, with a candidate whose cells are all the same.
fn misfit(rt: &impl Print, name: &str, n: usize, cells: usize, cell: u32) -> io::Result<()>
    requires { (n ≤ 8) × (cells ≤ 7) }
{
    let words = [1u32; 8];
    let candidate = [cell; 7];
    channels(rt, name, &words[..n], &candidate[..cells])
}

// Refusals before the nodes.
pub fn refused(rt: &impl Print) -> io::Result<()> {
    asked(
        rt,
        "an unsound plot and no question",
        two_sheets(1, 1, 3, 1, 1),
        &CHANNELS,
        &[],
        &[201],
        0,
    )?;
    misfit(rt, "no question", 0, 1, 1_000_000)?;
    misfit(rt, "7 words", 7, 1, 201)?;
    misfit(rt, "a candidate of 7", 8, 7, 1)?;
    misfit(rt, "a candidate that is no cell", 8, 1, 1_000_000)
}

// Asks a question of one node.
fn node(rt: &impl Print, name: &str, words: [u32; 8]) -> io::Result<()> {
    channels(rt, name, &words, &[201])
}

// Refusals of a node.
pub fn refused_nodes(rt: &impl Print) -> io::Result<()> {
    node(rt, "kind 0", [0; 8])?;
    node(
        rt,
        "a sheet that the head lacks",
        [1, 2, 2_000_000, 0, 0, 0, 0, 1],
    )?;
    node(
        rt,
        "a word that is not named",
        [1, 1, 2_000_009, 0, 0, 0, 0, 1],
    )?;
    node(
        rt,
        "a variable that nothing binds",
        [1, 1, 2_000_009, 0, 0, 0, 0, 0],
    )?;
    node(rt, "no such term", [1, 1, 2_000_016, 0, 0, 0, 0, 0])?;
    node(rt, "a node that is its own child", [3, 0, 0, 0, 0, 0, 0, 0])?;
    node(rt, "variable 16 quantified", [6, 16, 0, 0, 0, 0, 0, 0])
}

// A working list that is too short.
pub fn short_list(rt: &impl Print) -> io::Result<()> {
    let mut short = [9u32];
    let query = [1u32, 0, 2_000_000, 0, 0, 0, 0, 0];
    listed(
        rt,
        "a list of 1 word for 2 cells",
        two_sheets(1, 1, 4, 1, 1),
        &CHANNELS,
        &query,
        &[201],
        &mut short,
        0,
    )
}
