// The plot of the fills and undos: sheets of two columns and of one.
use instance::header::Header;
use worked::plots::two_sheets;

// The rows (m200, m1), (m1) and (5), and two words that are not in use. Mark 1 has the places 2 and 4, mark 200 has
// place 1; sheet numbers have the places 0, 3 and 5.
pub const ROWS: [u32; 9] = [0, 1_000_200, 1_000_001, 1, 1_000_001, 1, 5, 1_000_001, 7];

pub fn sound() -> Header {
    two_sheets(2, 1, 7, 1, 2)
}

// The last row lacks its cell.
pub fn unsound() -> Header {
    two_sheets(2, 1, 6, 1, 2)
}
