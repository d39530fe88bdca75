// The calls of sheets: one that is read, and one that is encoded from texts and numbers.
use super::show::{parts, show};
use std::io;
use std::io::Write;

// The most numbers that are handed over, more than a sheet has.
const MOST_NUMBERS: usize = 64;

pub fn read_sheet(out: &mut impl Write, sheet: &[u8], output: &mut [u8]) -> io::Result<()> {
    let given = film::sheets::film_read_sheet(sheet, output);
    show(
        out,
        b"read_sheet",
        &[u16::from(given.answer), u16::from(given.rounds)],
        output,
    )
}

// The numbers of two bytes, and zeros after the last.
fn numbers_of(bytes: &[u8]) -> [u16; MOST_NUMBERS] {
    let mut numbers = [0u16; MOST_NUMBERS];
    for (number, pair) in numbers.iter_mut().zip(bytes.chunks_exact(2)) {
        *number = u16::from_be_bytes([pair[0], pair[1]]);
    }
    numbers
}

// A sheet from its texts, and after them, where they end at a length, the bytes of its numbers.
pub fn encode_sheet(
    out: &mut impl Write,
    both: &[u8],
    length: u16,
    output: &mut [u8],
) -> io::Result<()> {
    let (texts, bytes) = parts(both, length);
    let numbers = numbers_of(bytes);
    let count = MOST_NUMBERS.min(bytes.len() / 2);
    let answer = film::sheets::film_encode_sheet(texts, &numbers[..count], output);
    show(out, b"encode_sheet", &[u16::from(answer)], output)
}
