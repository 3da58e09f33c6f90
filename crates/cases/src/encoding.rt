// Cards that are written and read back.
use decode::decode;
use encode::encode;
use std::io;
use worked::plots::one_sheet;
use worked::show;

// Decodes the first `size` bytes, to which a card was written.
fn decode_first(rt: &impl Print, bytes: &[u8], size: usize) -> io::Result<()> {
    let mut plot = [8u32; 12];
    if bytes.len() < size {
        return Ok(());
    }
    let decoded = decode(&bytes[..size], &mut plot);
    show::answer(
        rt,
        b"read again",
        decoded.map(|restarted| restarted.header.used),
    )?;
    show::words(rt, &plot)
}

// Decodes a card, encodes the result, and decodes that again.
fn there_and_back(rt: &impl Print, name: &str, bytes: &[u8]) -> io::Result<()> {
    let mut plot = [7u32; 12];
    let Ok(first) = decode(bytes, &mut plot) else {
        return Ok(());
    };
    show::words(rt, &plot)?;
    let mut out = [0xEEu8; 30];
    let written = encode(first.header, &plot, &mut out);
    show::answer(rt, name.as_bytes(), written)?;
    show::bytes(rt, &out)?;
    match written {
        Ok(size) => decode_first(rt, &out, size as usize),
        Err(_) => Ok(()),
    }
}

pub fn round_trip(rt: &impl Print) -> io::Result<()> {
    let blanks = [2u8, 1, 2, 0, 3, 0, 0, 1, 2, 0x0F, 0x42, 0x45, 1, 0];
    there_and_back(rt, "a card with blanks, written whole", &blanks)
}

// Writes a card of one row, with n words in use, and shows the bytes afterwards.
fn write_card(rt: &impl Print, name: &str, n: u32, out: &mut [u8]) -> io::Result<()> {
    let plot = [0u32, 5];
    let answer = encode(one_sheet(1, n, 1), &plot, out);
    show::answer(rt, name.as_bytes(), answer)?;
    show::bytes(rt, out)
}

pub fn refused(rt: &impl Print) -> io::Result<()> {
    let mut short = [0xEEu8; 8];
    let mut exact = [0xEEu8; 9];
    write_card(rt, "nine bytes into eight", 2, &mut short)?;
    write_card(rt, "a card of an unsound plot", 1, &mut exact)?;
    write_card(rt, "nine bytes into nine", 2, &mut exact)
}
