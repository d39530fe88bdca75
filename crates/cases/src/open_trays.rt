// The calls of an open tray: a case is one tray, empty at first, and steps. Each operation is printed with what it changed; bytes are written by hand between.
ghost use Rattle.std.specs.Prelude.{◌++◌, OnOk, codes};
ghost use Rattle.std.specs.Io.KnownBytes.{Appends};
ghost use Rattle.streams.specs.Hex.{hex};

use super::show::{parts, pass_over, print_byte, print_numbers};
use std::io;
use std::io::Write;

// The bytes of a tray, and where it has the number of its lines and the count.
const TRAY: usize = 4738;

const HELD: usize = 4736;

const COUNT: usize = 4737;

// The length of a step, and what its first byte says. Numbers and no enum: any other byte is passed over.
const STEP: usize = 4;

const ADD: u8 = 1;

const REPLACE: u8 = 2;

const DROP: u8 = 3;

const ASK: u8 = 4;

const WRITE: u8 = 5;

// An empty tray with one byte all over its rooms.
fn empty(byte: u8) -> [u8; TRAY] {
    let mut tray = [byte; TRAY];
    tray[HELD] = 0;
    tray[COUNT] = 0;
    tray
}

// Prints a space, a place and the byte there.
fn print_change<W: Write>(out: &mut W, place: usize, byte: u8) -> io::Result<()>
    ensures { OnOk result (Appends (W.contents out.old) (W.contents out.new) (codes " " ++ hex 4 place ++ codes ":" ++ hex 2 byte)) }
{
    out.write_all(b" ")?;
    streams::print_hex(out, place as u64, 4)?;
    out.write_all(b":")?;
    print_byte(out, byte)
}

// Prints an operation's name and answer, and what the tray has where it had something else, and ends the line.
fn print_edit(
    out: &mut impl Write,
    name: &[u8],
    answer: u8,
    before: &[u8; TRAY],
    after: &[u8; TRAY],
) -> io::Result<()> {
    out.write_all(name)?;
    print_numbers(out, &[u16::from(answer)])?;
    for (place, (was, is)) in before.iter().zip(after).enumerate() {
        if was != is {
            print_change(out, place, *is)?;
        }
    }
    out.write_all(b"\n")
}

// Adds a part of the lines, or nothing where they end before it does.
fn add(
    out: &mut impl Write,
    tray: &mut [u8; TRAY],
    lines: &[u8],
    start: u16,
    length: u8,
) -> io::Result<()> {
    let start = usize::from(start);
    let line = lines.get(start..start + usize::from(length)).unwrap_or(&[]);
    let before = *tray;
    let answer = film::trays::film_tray_add(tray, line);
    print_edit(out, b"tray_add", answer, &before, tray)
}

fn replace(
    out: &mut impl Write,
    tray: &mut [u8; TRAY],
    line: u8,
    address: u8,
    character: u8,
) -> io::Result<()> {
    let before = *tray;
    let answer = film::trays::film_tray_replace(tray, line, address, character);
    print_edit(out, b"tray_replace", answer, &before, tray)
}

fn drop_last(out: &mut impl Write, tray: &mut [u8; TRAY]) -> io::Result<()> {
    let before = *tray;
    let answer = film::trays::film_tray_drop(tray);
    print_edit(out, b"tray_drop", answer, &before, tray)
}

fn ask(out: &mut impl Write, tray: &[u8; TRAY]) -> io::Result<()> {
    let given = film::trays::film_tray_count(tray);
    out.write_all(b"tray_count")?;
    print_numbers(out, &[u16::from(given.answer), u16::from(given.count)])?;
    out.write_all(b"\n")
}

// Writes a byte by hand. Past the tray there is no place for it.
fn write(tray: &mut [u8; TRAY], place: u16, byte: u8) {
    if let Some(at) = tray.get_mut(usize::from(place)) {
        *at = byte;
    }
}

fn take_step(
    out: &mut impl Write,
    tray: &mut [u8; TRAY],
    lines: &[u8],
    step: [u8; STEP],
) -> io::Result<()> {
    let [kind, a, b, c] = step;
    match kind {
        ADD => add(out, tray, lines, u16::from_be_bytes([a, b]), c),
        REPLACE => replace(out, tray, a, b, c),
        DROP => drop_last(out, tray),
        ASK => ask(out, tray),
        WRITE => {
            write(tray, u16::from_be_bytes([a, b]), c);
            Ok(())
        }
        _ => pass_over(out),
    }
}

// Takes each step from an empty tray on. The lines and the steps stand one after the other, the lines of a length, or of all there is.
pub fn open_tray(out: &mut impl Write, both: &[u8], length: u16, byte: u8) -> io::Result<()> {
    out.write_all(b"open_tray\n")?;
    let (lines, steps) = parts(both, length);
    let mut tray = empty(byte);
    for step in steps.chunks_exact(STEP) {
        take_step(out, &mut tray, lines, [step[0], step[1], step[2], step[3]])?;
    }
    Ok(())
}
