// The calls of the field: sums, products and quotients, a row of them with one first operand.
use super::show::print_byte;
use film::FilmElement;
use std::io;
use std::io::Write;

// Prints a space and the value, or `r` and the refusal.
fn print_element(out: &mut impl Write, element: FilmElement) -> io::Result<()> {
    if element.answer == 0 {
        out.write_all(b" ")?;
        print_byte(out, element.value)
    } else {
        out.write_all(b" r")?;
        streams::print_decimal(out, u64::from(element.answer))
    }
}

// The operation of each second operand.
pub fn row<F: Fn(u8) -> FilmElement>(
    out: &mut impl Write,
    name: &[u8],
    operation: F,
    seconds: &[u8],
) -> io::Result<()>
    requires { F.IsAlwaysCallable operation }
{
    out.write_all(name)?;
    for second in seconds {
        print_element(out, operation(*second))?;
    }
    out.write_all(b"\n")
}
