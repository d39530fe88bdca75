// The calls that read lines: one, by the method of 1968 too, one with blots, a spool, or the better of two scans. All tell of a line in one way.
use super::show::{parts, print_bytes, print_numbers, show};
use line::PlainReading;
use std::io;
use std::io::Write;

pub fn read_line(
    out: &mut impl Write,
    word: &[u8],
    radius: u8,
    output: &mut [u8],
) -> io::Result<()> {
    let given = film::film_read_line(word, radius, output);
    show(out, b"read_line", &numbers_of(given), output)
}

pub fn read_line_wanted(
    out: &mut impl Write,
    word: &[u8],
    radius: u8,
    wanted: u16,
    output: &mut [u8],
) -> io::Result<()> {
    let given = film::film_read_line_wanted(word, radius, wanted, output);
    show(out, b"read_line_wanted", &numbers_of(given), output)
}

pub fn read_line_paper(
    out: &mut impl Write,
    word: &[u8],
    radius: u8,
    output: &mut [u8],
) -> io::Result<()> {
    let given = film::film_read_line_paper(word, radius, output);
    show(out, b"read_line_paper", &numbers_of(given), output)
}

pub fn read_line_paper_wanted(
    out: &mut impl Write,
    word: &[u8],
    radius: u8,
    wanted: u16,
    output: &mut [u8],
) -> io::Result<()> {
    let given = film::film_read_line_paper_wanted(word, radius, wanted, output);
    show(out, b"read_line_paper_wanted", &numbers_of(given), output)
}

// A word and its map stand one after the other, the word of a length, or of all there is.
pub fn read_blotted(
    out: &mut impl Write,
    both: &[u8],
    length: u16,
    output: &mut [u8],
) -> io::Result<()> {
    let (word, map) = parts(both, length);
    let given = film::film_read_blotted(word, map, output);
    show(out, b"read_blotted", &numbers_of(given), output)
}

pub fn read_spool(
    out: &mut impl Write,
    lines: &[u8],
    radius: u8,
    output: &mut [u8],
) -> io::Result<()> {
    let given = film::film_read_spool(lines, radius, output);
    out.write_all(b"read_spool")?;
    print_numbers(out, &[u16::from(given.answer)])?;
    print_places(out, &given.places)?;
    print_bytes(out, output)
}

// Which of two scans is kept, as a C program is told, and its bytes, as they are handed back.
// The scans stand one after the other, the first of a length, or of all there is.
pub fn better_scan(out: &mut impl Write, both: &[u8], length: u16, radius: u8) -> io::Result<()> {
    let (first, second) = parts(both, length);
    let given = film::film_better_scan(first, second, radius);
    let mut answer: u8 = 0;
    let kept = scans::better_scan(first, second, radius, &mut answer);
    show(
        out,
        b"better_scan",
        &[
            u16::from(given.answer),
            u16::from(given.scan),
            u16::from(answer),
        ],
        kept,
    )
}

// What is told of a line.
fn numbers_of(reading: PlainReading) -> [u16; 5] {
    [
        u16::from(reading.answer),
        reading.number,
        u16::from(reading.distance),
        u16::from(reading.first),
        u16::from(reading.last),
    ]
}

// Prints the numbers of each place, up to the last that does not hold only zeros.
fn print_places(out: &mut impl Write, places: &[PlainReading]) -> io::Result<()> {
    let held = places
        .iter()
        .rposition(|place| numbers_of(*place) != [0; 5]);
    let count = held.map_or(0, |last| last + 1);
    for place in &places[..count] {
        print_numbers(out, &numbers_of(*place))?;
    }
    Ok(())
}
