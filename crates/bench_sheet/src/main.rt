// Runs the rows of the bench sheet in its order, and prints for each what was answered; the starred rows are proved besides, in proofs/Sheet.antt.
#![tactic(auto)]

ghost use Rattle.std.specs.Prelude.{◌++◌, OnOk, codes, decimal};
ghost use Rattle.std.specs.Io.KnownBytes.{Appends};

use refusal::Refusal;
use std::io;
use std::io::{BufWriter, Write};

// Prints a space and a number.
fn print_number<W: Write>(out: &mut W, n: u64) -> io::Result<()>
    ensures { OnOk result (Appends (W.contents out.old) (W.contents out.new) (codes " " ++ decimal n)) }
{
    out.write_all(b" ")?;
    streams::print_decimal(out, n)
}

// Prints each byte as a number, and ends the line.
fn print_bytes(out: &mut impl Write, bytes: &[u8]) -> io::Result<()> {
    for x in bytes {
        print_number(out, u64::from(*x))?;
    }
    out.write_all(b"\n")
}

fn print_refusal(out: &mut impl Write, why: Refusal) -> io::Result<()> {
    out.write_all(b" refused")?;
    print_number(out, u64::from(refusal::number(why)))?;
    out.write_all(b"\n")
}

fn print_element(out: &mut impl Write, title: &str, given: Result<u8, Refusal>) -> io::Result<()> {
    write!(out, "{title}")?;
    match given {
        Ok(value) => {
            print_number(out, u64::from(value))?;
            out.write_all(b"\n")
        }
        Err(why) => print_refusal(out, why),
    }
}

// What was written.
fn print_written(
    out: &mut impl Write,
    title: &str,
    given: Result<(), Refusal>,
    output: &[u8],
) -> io::Result<()> {
    write!(out, "{title}")?;
    match given {
        Ok(()) => print_bytes(out, output),
        Err(why) => print_refusal(out, why),
    }
}

// The number that was answered, after what it tells, and the output.
fn print_counted(
    out: &mut impl Write,
    title: &str,
    told: &str,
    given: Result<u8, Refusal>,
    output: &[u8],
) -> io::Result<()> {
    write!(out, "{title}")?;
    match given {
        Ok(number) => {
            write!(out, " {told}")?;
            print_number(out, u64::from(number))?;
            out.write_all(b":")?;
            print_bytes(out, output)
        }
        Err(why) => print_refusal(out, why),
    }
}

// Z: the line of zero text and number 0.
fn zero_line() -> [u8; 63] {
    let mut z = [0u8; 63];
    z[52] = 32;
    z[55] = 8;
    z[62] = 1;
    z
}

// Z with 5 at address 60.
fn five_at_60() -> [u8; 63] {
    let mut z = zero_line();
    z[60] = 5;
    z
}

// Z with five characters wrong.
fn five_wrong() -> [u8; 63] {
    let mut z = zero_line();
    z[0] = 9;
    z[7] = 1;
    z[19] = 63;
    z[50] = 32;
    z[62] = 0;
    z
}

// And with a sixth.
fn six_wrong() -> [u8; 63] {
    let mut z = five_wrong();
    z[33] = 9;
    z
}

fn print_is_line(out: &mut impl Write, title: &str, word: [u8; 63]) -> io::Result<()> {
    let said = if code::is_line(&word) {
        "a line"
    } else {
        "no line"
    };
    writeln!(out, "{title} {said}")
}

// The answer, the number, the distance and the output.
fn print_line(
    out: &mut impl Write,
    title: &str,
    word: [u8; 63],
    radius: u8,
    wanted: Option<u16>,
) -> io::Result<()> {
    write!(out, "{title}")?;
    let mut output = [0u8; 63];
    match line::read_line(&word, radius, wanted, &mut output) {
        Ok(reading) => {
            out.write_all(b" number")?;
            print_number(out, u64::from(reading.number))?;
            out.write_all(b" distance")?;
            print_number(out, u64::from(reading.distance))?;
            out.write_all(b":")?;
            print_bytes(out, &output)
        }
        Err(why) => print_refusal(out, why),
    }
}

// The text of the sheet's line of number 65.
fn text_65() -> [u8; 50] {
    let mut text = [0u8; 50];
    text[5] = 1;
    text[6] = 1;
    text[14] = 1;
    text[15] = 1;
    text[23] = 1;
    text[24] = 1;
    text[32] = 1;
    text[33] = 1;
    text[41] = 1;
    text[42] = 1;
    text
}

// The line that is written.
fn print_encoding(out: &mut impl Write, title: &str, number: u16) -> io::Result<()> {
    let mut output = [0u8; 63];
    let given = encoder::encode_line(&text_65(), number, &mut output);
    print_written(out, title, given, &output)
}

// The starts listed: the output was lent with 255 in it, which is no start.
fn print_ring(out: &mut impl Write, title: &str, radius: u8) -> io::Result<()> {
    let mut output = [255u8; 126];
    let given = ring::list_ring(&zero_line(), radius, &mut output);
    print_counted(out, title, "count", given, &output)
}

fn print_block(
    out: &mut impl Write,
    title: &str,
    rows: &[u8],
    output: &mut [u8],
) -> io::Result<()> {
    let given = block::read_block(rows, output);
    print_counted(out, title, "distance", given, output)
}

fn print_field_rows(out: &mut impl Write) -> io::Result<()> {
    print_element(out, "32 times 2:", field::product(32, 2))?;
    print_element(out, "33 times 2:", field::product(33, 2))?;
    print_element(out, "quotient of 5 by 0:", field::quotient(5, 0))
}

fn print_line_rows(out: &mut impl Write) -> io::Result<()> {
    print_is_line(out, "Z:", zero_line())?;
    print_is_line(out, "63 zeros:", [0u8; 63])?;
    print_line(out, "63 zeros, radius 3:", [0u8; 63], 3, None)?;
    print_encoding(
        out,
        "text 1 at 5, 6, 14, 15, 23, 24, 32, 33, 41, 42, number 65:",
        65,
    )?;
    print_line(out, "Z with 5 at 60, radius 1:", five_at_60(), 1, None)
}

fn print_starred_blocks(out: &mut impl Write) -> io::Result<()> {
    print_block(out, "rows 3, 252:", b"\x03\xfc", &mut [0u8; 2])?;
    print_block(out, "rows 3, 253:", b"\x03\xfd", &mut [0u8; 2])?;
    print_block(out, "rows 3, 3:", b"\x03\x03", &mut [0u8; 2])?;
    print_block(out, "rows 3, 0:", b"\x03\x00", &mut [0u8; 2])
}

// A block that outlasts a smudge, and the same with the four cells of a window turned.
fn print_smudges(out: &mut impl Write) -> io::Result<()> {
    let mut output = [0u8; 8];
    let written = smudge::encode_smudge(b"\x01\x02\x03\x04\x05\x06\x07", &mut output);
    print_written(out, "data 1 to 7 against smudges:", written, &output)?;
    let read = smudge::read_smudge(b"\x83\xaa\x81\x1a\x1f\x0a\x05\x5d", &mut output);
    print_counted(
        out,
        "with the window at row 4, column 3 turned:",
        "distance",
        read,
        &output,
    )
}

fn print_damaged_lines(out: &mut impl Write) -> io::Result<()> {
    print_line(out, "Z with 5 wrong, radius 5:", five_wrong(), 5, None)?;
    print_line(out, "Z with 5 wrong, radius 4:", five_wrong(), 4, None)?;
    print_line(out, "Z with 6 wrong, radius 5:", six_wrong(), 5, None)?;
    print_line(
        out,
        "Z with 5 at 60, radius 1, wanted 1:",
        five_at_60(),
        1,
        Some(1),
    )
}

fn print_bounds(out: &mut impl Write) -> io::Result<()> {
    print_line(out, "Z, radius 6:", zero_line(), 6, None)?;
    print_encoding(out, "number 4095:", 4095)?;
    print_encoding(out, "number 4096:", 4096)?;
    print_line(out, "Z, wanted 4095:", zero_line(), 0, Some(4095))?;
    print_line(out, "Z, wanted 4096:", zero_line(), 0, Some(4096))
}

// 64 rows of no data: zeros, and the column checks.
fn rows_64() -> [u8; 64] {
    let mut rows = [0u8; 64];
    rows[63] = 255;
    rows
}

// And one row more, which is too many.
fn rows_65() -> [u8; 65] {
    let mut rows = [0u8; 65];
    rows[64] = 255;
    rows
}

fn print_row_counts(out: &mut impl Write) -> io::Result<()> {
    print_block(out, "1 row:", b"\xff", &mut [0u8; 1])?;
    print_block(out, "2 rows:", b"\x00\xff", &mut [0u8; 2])?;
    print_block(out, "64 rows:", &rows_64(), &mut [0u8; 64])?;
    print_block(out, "65 rows:", &rows_65(), &mut [0u8; 65])
}

// Prints every row, in the sheet's order.
fn print_sheet(out: &mut impl Write) -> io::Result<()> {
    print_field_rows(out)?;
    print_line_rows(out)?;
    print_starred_blocks(out)?;
    print_smudges(out)?;
    print_damaged_lines(out)?;
    print_bounds(out)?;
    print_ring(out, "ring Z, radius 3:", 3)?;
    print_ring(out, "ring Z, radius 4:", 4)?;
    print_ring(out, "ring Z, radius 5:", 5)?;
    print_row_counts(out)
}

fn main(rt: HostRuntime) -> io::Result<()> {
    let mut out = BufWriter::new(rt.alloc(), io::writer(&rt))?;
    let printed = print_sheet(&mut out);
    // what stands before a row that could not be printed is written too
    let written = out.flush();
    printed.and(written)
}
