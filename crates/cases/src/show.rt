// What is printed of a case: its call's name, numbers in decimal digits, and bytes in hexadecimal digits; and the parts and the numbers that stand in bytes.
ghost use Rattle.std.specs.Prelude.{◌++◌, OnOk, codes, decimal};
ghost use Rattle.std.specs.Io.KnownBytes.{Appends};
ghost use Rattle.streams.specs.Hex.{hex};

use std::io;
use std::io::Write;

// Prints a byte as two hexadecimal digits.
pub fn print_byte<W: Write>(out: &mut W, x: u8) -> io::Result<()>
    ensures { OnOk result (Appends (W.contents out.old) (W.contents out.new) (hex 2 x)) }
{
    streams::print_hex(out, u64::from(x), 2)
}

// Prints a space and a number.
pub fn print_number<W: Write>(out: &mut W, n: u16) -> io::Result<()>
    ensures { OnOk result (Appends (W.contents out.old) (W.contents out.new) (codes " " ++ decimal n)) }
{
    out.write_all(b" ")?;
    streams::print_decimal(out, u64::from(n))
}

// Prints the numbers of an answer.
pub fn print_numbers(out: &mut impl Write, numbers: &[u16]) -> io::Result<()> {
    for n in numbers {
        print_number(out, *n)?;
    }
    Ok(())
}

// Prints a space and the bytes, in brackets, and ends the line.
pub fn print_bytes(out: &mut impl Write, bytes: &[u8]) -> io::Result<()> {
    out.write_all(b" [")?;
    for x in bytes {
        print_byte(out, *x)?;
    }
    out.write_all(b"]\n")
}

// Prints a call's name, the numbers of its answer and the bytes that go with them.
pub fn show(out: &mut impl Write, name: &[u8], numbers: &[u16], bytes: &[u8]) -> io::Result<()> {
    out.write_all(name)?;
    print_numbers(out, numbers)?;
    print_bytes(out, bytes)
}

// A case of no call that is known.
pub fn pass_over(out: &mut impl Write) -> io::Result<()> {
    out.write_all(b"passed over\n")
}

// The two parts of bytes that stand one after the other, the first of a length, or of all there is.
pub fn parts(both: &[u8], length: u16) -> (&[u8], &[u8]) {
    both.split_at(both.len().min(usize::from(length)))
}
