// Hands stored cases to the library's functions, and prints a line for each with all that was answered.
//
// Standard input is one case after another: a head of eight bytes, and then the input. The head is these bytes, a number's high byte first:
// the call; a small number (a radius, a first operand, a character, a byte of a tray or a threshold); a number of two bytes (of a line, wanted, a register's
// count, or the length of the first of two scans, of a word before its map, of texts before numbers, of lines before steps or of a part that stands twice);
// the length of the output that is lent, in two bytes; the length of the input, in two bytes. No case is too long: there is room for every
// length that two bytes can say. The output is lent with LENT in every byte, so that it shows where it is left alone.
//
// A line is the call's name, the numbers of the answer, and the bytes that were given in hexadecimal, in brackets.
// Sum, product and quotient: each byte of the input is a second operand, and what is printed for it after a space is the value in two
// hexadecimal digits, or `r` and the number of the refusal.
// Better scan: the input is the two scans, one after the other. The numbers are the answer and the scan, and the answer that comes with the part of the
// input that is handed back; the bytes are that part's.
// Read spool: the numbers are the answer, and those of each place, as reading its line gives them, up to the last that does not hold only zeros.
// Read blotted: the input is the word and its map, one after the other.
// Read sheet: the numbers are the answer and the rounds.
// Encode sheet: the input is the texts, and after them the numbers, two bytes each; numbers past MOST_NUMBERS of sheets.rt are left out.
// Open tray: a tray that is empty, with the small number in every byte of its rooms. The input is the lines that are added, and after them steps of four bytes:
// 1 to add (where the line starts in the lines, in two bytes; its length), 2 to replace (the line, the address, the character), 3 to drop, 4 to ask the count,
// 5 to write a byte by hand (the place in the tray, in two bytes; the byte), which prints nothing. The line is the name alone, and each operation has one of
// its own after it: its name, the numbers of the answer, and each byte of the tray that it changed, in hexadecimal, after its place and a colon.
// Scan clarity: the numbers are the answer and the kind; the bytes are the bits of three doubles, the ratio, the mean of the dark cells, that of the bright.
// Spool clarity: the spool is the input and after it its first bytes again, as many as the number says, or all. The numbers are the answer and three counts.
// Step and checks: the input is the eleven characters held (0 for each that is not there), and the number's low byte is the count.
// Any other call: `passed over`.
// The run ends where the input ends, also within a case, or after MOST_CASES.
//
// A new call is a constant, a function that hands it over and shows its answer, and an arm of `hand_over`. The second program has the same
// constant, and makes the cases (second/cases.rs).
#![tactic(auto)]

ghost use Rattle.std.specs.Prelude.{◌≡◌, length};

use std::io;
use std::io::{BufReader, BufWriter, Read, Write};

mod blocks;
mod clarities;
mod elements;
mod lines;
mod open_trays;
mod registers;
mod rings;
mod sheets;
mod show;

// The calls. Numbers and no enum: a call is a byte of standard input, and one that is none of these is passed over.
const SUM: u8 = 1;

const PRODUCT: u8 = 2;

const QUOTIENT: u8 = 3;

const ENCODE_LINE: u8 = 4;

const STEP: u8 = 5;

const CHECKS: u8 = 6;

const READ_LINE: u8 = 7;

const READ_LINE_WANTED: u8 = 8;

const LIST_RING: u8 = 9;

const READ_RING: u8 = 10;

const ENCODE_BLOCK: u8 = 11;

const READ_BLOCK: u8 = 12;

const BETTER_SCAN: u8 = 13;

const PANEL_TEXT: u8 = 14;

const PANEL_RING: u8 = 15;

const READ_SPOOL: u8 = 16;

const READ_BLOTTED: u8 = 17;

const READ_LINE_PAPER: u8 = 18;

const READ_LINE_PAPER_WANTED: u8 = 19;

const READ_SHEET: u8 = 20;

const ENCODE_SHEET: u8 = 21;

const OPEN_TRAY: u8 = 22;

const ENCODE_SMUDGE: u8 = 23;

const READ_SMUDGE: u8 = 24;

const SCAN_CLARITY: u8 = 25;

const SPOOL_CLARITY: u8 = 26;

// The length of a head.
const HEAD: usize = 8;

// What stands in each byte of an output that is lent.
const LENT: u8 = 170;

// The longest input, and the longest output: the largest number of two bytes.
const LONGEST: usize = 65535;

// The most cases of a run, so that it ends whatever the input is.
const MOST_CASES: u32 = 1000000;

// What a head says.
#[derive(Clone, Copy)]
struct Head {
    call: u8,
    small: u8,
    number: u16,
    room: u16,
    length: u16,
}

impl From<[u8; HEAD]> for Head {
    fn from(bytes: [u8; HEAD]) -> Head {
        let [call, small, a, b, c, d, e, f] = bytes;
        Head {
            call,
            small,
            number: u16::from_be_bytes([a, b]),
            room: u16::from_be_bytes([c, d]),
            length: u16::from_be_bytes([e, f]),
        }
    }
}

// Hands a case to the function of its call.
fn hand_over(out: &mut impl Write, head: Head, input: &[u8], output: &mut [u8]) -> io::Result<()> {
    let small = head.small;
    let number = head.number;
    match head.call {
        SUM => elements::row(out, b"sum", |v| film::film_sum(small, v), input),
        PRODUCT => elements::row(out, b"product", |v| film::film_product(small, v), input),
        QUOTIENT => elements::row(out, b"quotient", |v| film::film_quotient(small, v), input),
        ENCODE_LINE => registers::encode_line(out, input, number, output),
        STEP => registers::step(out, input, number, small),
        CHECKS => registers::checks(out, input, number),
        READ_LINE => lines::read_line(out, input, small, output),
        READ_LINE_WANTED => lines::read_line_wanted(out, input, small, number, output),
        LIST_RING => rings::list_ring(out, input, small, output),
        READ_RING => rings::read_ring(out, input, small, output),
        ENCODE_BLOCK => blocks::encode_block(out, input, output),
        READ_BLOCK => blocks::read_block(out, input, output),
        BETTER_SCAN => lines::better_scan(out, input, number, small),
        PANEL_TEXT => rings::panel_text(out, input, output),
        PANEL_RING => rings::panel_ring(out, input, small, output),
        READ_SPOOL => lines::read_spool(out, input, small, output),
        READ_BLOTTED => lines::read_blotted(out, input, number, output),
        READ_LINE_PAPER => lines::read_line_paper(out, input, small, output),
        READ_LINE_PAPER_WANTED => lines::read_line_paper_wanted(out, input, small, number, output),
        READ_SHEET => sheets::read_sheet(out, input, output),
        ENCODE_SHEET => sheets::encode_sheet(out, input, number, output),
        OPEN_TRAY => open_trays::open_tray(out, input, number, small),
        ENCODE_SMUDGE => blocks::encode_smudge(out, input, output),
        READ_SMUDGE => blocks::read_smudge(out, input, output),
        SCAN_CLARITY => clarities::scan_clarity(out, input, small),
        SPOOL_CLARITY => clarities::spool_clarity(out, input, number, small),
        _ => show::pass_over(out),
    }
}

// The longest output, as it is lent; also room for the longest input.
fn untouched() -> [u8; LONGEST]
    ensures { 65535 ≡ length result }
{
    [LENT; LONGEST]
}

// Runs a case, with an output of the length that it names.
fn run_case(out: &mut impl Write, head: Head, input: &[u8]) -> io::Result<()> {
    let mut output = untouched();
    hand_over(out, head, input, &mut output[..usize::from(head.room)])
}

// Fills the input of a case and runs the case, or tells that standard input ends first.
fn filled_case(
    from: &mut impl Read,
    out: &mut impl Write,
    head: Head,
    input: &mut [u8],
) -> io::Result<bool> {
    if streams::read_full(from, input)? < input.len() {
        return Ok(false);
    }
    run_case(out, head, input)?;
    Ok(true)
}

// Takes the next case and runs it, or tells that standard input ends first.
fn next_case(from: &mut impl Read, out: &mut impl Write) -> io::Result<bool> {
    let mut bytes = [0u8; HEAD];
    if streams::read_full(from, &mut bytes)? < HEAD {
        return Ok(false);
    }
    let head = Head::from(bytes);
    let mut input = untouched();
    filled_case(from, out, head, &mut input[..usize::from(head.length)])
}

// Runs so many cases, or as many as there are.
fn run_cases(from: &mut impl Read, out: &mut impl Write, most: u32) -> io::Result<()> {
    for _ in 0..most {
        if !next_case(from, out)? {
            break;
        }
    }
    Ok(())
}

fn main(rt: HostRuntime) -> io::Result<()> {
    let mut from = BufReader::new(rt.alloc(), rt.stdin())?;
    let mut out = BufWriter::new(rt.alloc(), io::writer(&rt))?;
    let ran = run_cases(&mut from, &mut out, MOST_CASES);
    // what was answered before a read or a write failed is written too
    let written = out.flush();
    ran.and(written)
}
