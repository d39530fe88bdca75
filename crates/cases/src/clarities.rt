// The calls that tell how clear scans are: one scan, and a spool, which is put together since it can be longer than an input.
ghost use Rattle.std.specs.Prelude.{◌≡◌, ◌≤◌, length};

use super::LONGEST;
use super::show::{print_numbers, show};
use std::io;
use std::io::Write;

// Room for every spool: twice the longest input.
const ROOM: usize = 131070;

// The hexadecimal digits of a double's bits.
const DIGITS: usize = 16;

// What is printed in the place of a double that is no number: no answer of the library has one.
const NO_NUMBER: u64 = 0xffff_ffff_ffff_ffff;

// The bits of a double.
fn bits(x: f64) -> u64 {
    if x != x {
        return NO_NUMBER;
    }
    f64::to_bits(x)
}

// Prints the bits of a double, the highest first.
fn print_double(out: &mut impl Write, x: f64) -> io::Result<()> {
    streams::print_hex(out, bits(x), DIGITS)
}

pub fn scan_clarity(out: &mut impl Write, cells: &[u8], threshold: u8) -> io::Result<()> {
    let given = film::brightness::film_scan_clarity(cells, threshold);
    out.write_all(b"scan_clarity")?;
    print_numbers(out, &[u16::from(given.answer), u16::from(given.kind)])?;
    out.write_all(b" [")?;
    print_double(out, given.ratio)?;
    print_double(out, given.dark)?;
    print_double(out, given.bright)?;
    out.write_all(b"]\n")
}

// An input twice, and zeros after it.
fn twice(input: &[u8]) -> [u8; ROOM]
    ensures { 131070 ≡ length result }
{
    let mut cells = [0u8; ROOM];
    for (cell, byte) in cells.iter_mut().zip(input.iter().chain(input)) {
        *cell = *byte;
    }
    cells
}

// How long a spool is that is an input and so many of its first bytes again, or all of them.
fn length_of(input: &[u8], again: u16) -> usize
    ensures { result ≤ 131070 }
{
    let length = input.len().min(LONGEST);
    length + length.min(usize::from(again))
}

// Counts the scans of such a spool.
pub fn spool_clarity(
    out: &mut impl Write,
    input: &[u8],
    again: u16,
    threshold: u8,
) -> io::Result<()> {
    let cells = twice(input);
    let given = film::brightness::film_spool_clarity(&cells[..length_of(input, again)], threshold);
    show(
        out,
        b"spool_clarity",
        &[
            u16::from(given.answer),
            u16::from(given.ratios),
            u16::from(given.unspread),
            u16::from(given.refusals),
        ],
        &[],
    )
}
