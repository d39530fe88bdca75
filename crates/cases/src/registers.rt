// The calls of the recorder: a line that is encoded at once, a character that a register takes, and its checks.
use super::show::show;
use film::recorder::FilmRegister;
use std::io;
use std::io::Write;

// The characters that a register holds.
const CHECKS: usize = 11;

pub fn encode_line(
    out: &mut impl Write,
    text: &[u8],
    number: u16,
    output: &mut [u8],
) -> io::Result<()> {
    let answer = film::film_encode_line(text, number, output);
    show(out, b"encode_line", &[u16::from(answer)], output)
}

// A register from the characters held, 0 for each that is not there, and its count.
fn register_of(characters: &[u8], count: u16) -> FilmRegister {
    let mut held = [0u8; CHECKS];
    for (to, from) in held.iter_mut().zip(characters) {
        *to = *from;
    }
    FilmRegister {
        held,
        count: (count % 256) as u8,
    }
}

pub fn step(out: &mut impl Write, held: &[u8], count: u16, c: u8) -> io::Result<()> {
    let given = film::recorder::film_step(register_of(held, count), c);
    let after = given.register;
    let left = after.held;
    show(
        out,
        b"step",
        &[u16::from(given.answer), u16::from(after.count)],
        &left,
    )
}

pub fn checks(out: &mut impl Write, held: &[u8], count: u16) -> io::Result<()> {
    let given = film::recorder::film_checks(register_of(held, count));
    let checks = given.checks;
    show(out, b"checks", &[u16::from(given.answer)], &checks)
}
