// The headers of the worked plots. They are made only here.
use instance::header::{Header, header_with};

pub const NO_SHEET: Header = Header {
    relations: 0,
    arities: [0; 8],
    used: 0,
    counts: [0; 8],
};

// Any header, even one that is unsound whatever the words are.
pub fn sheets(relations: u32, arities: [u32; 8], used: u32, counts: [u32; 8]) -> Header {
    header_with(relations, arities, used, counts)
}

// A header with one sheet.
pub fn one_sheet(columns: u32, used: u32, rows: u32) -> Header {
    let arities = [columns, 0, 0, 0, 0, 0, 0, 0];
    let counts = [rows, 0, 0, 0, 0, 0, 0, 0];
    sheets(1, arities, used, counts)
}

// A header with two sheets; `rows` are those of the first, `others` those of the second.
pub fn two_sheets(first: u32, second: u32, used: u32, rows: u32, others: u32) -> Header {
    let arities = [first, second, 0, 0, 0, 0, 0, 0];
    let counts = [rows, others, 0, 0, 0, 0, 0, 0];
    sheets(2, arities, used, counts)
}
