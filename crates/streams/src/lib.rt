// What the programs print numbers with, and read standard input with.
//
// Each function stops at the first read or write that fails, and hands its error on.
#![tactic(auto)]

ghost use Rattle.std.specs.Prelude.{◌<◌, ◌≤◌, length, take, decimal, OnOk, IfOk};
ghost use Rattle.std.specs.Io.KnownBytes.{Appends, Consumes, IsAtEnd};
ghost use Rattle.streams.specs.Hex.{hex};

use std::io;
use std::io::{Read, Write};

// Writes a number in decimal digits.
pub fn print_decimal<W: Write>(to: &mut W, n: u64) -> io::Result<()>
    ensures { OnOk result (Appends (W.contents to.old) (W.contents to.new) (decimal n)) }
{
    write!(to, "{n}")
}

// Writes a number in hexadecimal digits, so many of them at least, with zeros before it.
#[tactic(auto, using(crate::proofs::Hex::hex_padded))]
pub fn print_hex<W: Write>(to: &mut W, n: u64, width: usize) -> io::Result<()>
    ensures { OnOk result (Appends (W.contents to.old) (W.contents to.new) (hex width n)) }
{
    write!(to, "{n:0width$x}")
}

// Reads until there is no room left or the input ends, and tells how many bytes it put at the start.
pub fn read_full<R: Read>(from: &mut R, bytes: &mut [u8]) -> io::Result<usize>
    ensures within { IfOk result (λ n. n ≤ length bytes.new) }
    ensures read { IfOk result (λ n. Consumes (R.remaining from.old) (R.remaining from.new) (take n bytes.new)) }
    ensures ends { IfOk result (λ n. n < length bytes.new → IsAtEnd (R.remaining from.new)) }
{
    let mut done = 0;
    // a while, since the reader tells how far each turn goes: no iterator counts that
    while done < bytes.len() {
        let n = from.read(&mut bytes[done..])?;
        if n == 0 {
            break;
        }
        done += n;
    }
    Ok(done)
}
