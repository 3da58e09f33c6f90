// Cards that decode, and cards that are refused.
use decode::decode;
use std::io;
use worked::plots::NO_SHEET;
use worked::show;

// Decodes into eight words, and shows the answer, then the header, if there is one, and the words afterwards.
fn show_decode(rt: &impl Print, name: &str, bytes: &[u8]) -> io::Result<()> {
    let mut plot = [7u32; 8];
    let decoded = decode(bytes, &mut plot);
    let header = decoded.map_or(NO_SHEET, |restarted| restarted.header);
    show::answer(
        rt,
        name.as_bytes(),
        decoded.map(|restarted| restarted.header.used),
    )?;
    show::plot(rt, header, &plot)
}

pub fn accepted(rt: &impl Print) -> io::Result<()> {
    let whole = [2u8, 1, 1, 0, 2, 0, 1, 0, 0, 0xC9, 1, 0];
    show_decode(rt, "the whole case", &whole)?;
    let blanks = [2u8, 1, 2, 0, 3, 0, 0, 1, 2, 0x0F, 0x42, 0x45, 0, 0];
    show_decode(rt, "blanks in two sheets, above mark 5", &blanks)?;
    let empty = [1u8, 6, 0, 0];
    show_decode(rt, "no rows", &empty)
}

pub fn cut_short(rt: &impl Print) -> io::Result<()> {
    let none = [1u8; 0];
    show_decode(rt, "no byte", &none)?;
    let announced = [1u8, 1, 0xFF, 0xFF, 0, 1, 0, 0, 1];
    show_decode(rt, "65,535 rows announced, one there", &announced)?;
    let field = [1u8, 1, 0, 1, 0, 1, 0, 0];
    show_decode(rt, "a field of two bytes", &field)
}

pub fn refused(rt: &impl Print) -> io::Result<()> {
    let relations = [9u8, 1];
    show_decode(rt, "nine sheets", &relations)?;
    let arity = [1u8, 7];
    show_decode(rt, "seven columns", &arity)?;
    let relation = [1u8, 1, 0, 1, 1, 0];
    show_decode(rt, "a row of sheet 1 of one sheet", &relation)?;
    let bit = [1u8, 1, 0, 1, 0, 2, 0, 0, 1];
    show_decode(rt, "a bit for column 1 of one column", &bit)?;
    let cell = [1u8, 1, 0, 1, 0, 1, 0x0F, 0x42, 0x40];
    show_decode(rt, "1,000,000 is no cell", &cell)
}

pub fn at_the_end(rt: &impl Print) -> io::Result<()> {
    let more = [1u8, 1, 0, 0, 0];
    show_decode(rt, "a byte behind the last row", &more)?;
    let exhausted = [1u8, 2, 0, 1, 0, 1, 0x0F, 0x43, 0x08];
    show_decode(rt, "a blank above mark 200", &exhausted)?;
    let full = [1u8, 6, 0, 2, 0, 0, 0, 0];
    show_decode(rt, "fourteen words into eight", &full)
}
