// The calls of blocks, and of blocks that outlast a smudge: one that is encoded, and one that is read.
use super::show::show;
use std::io;
use std::io::Write;

pub fn encode_block(out: &mut impl Write, rows: &[u8], output: &mut [u8]) -> io::Result<()> {
    let answer = film::film_encode_block(rows, output);
    show(out, b"encode_block", &[u16::from(answer)], output)
}

pub fn read_block(out: &mut impl Write, rows: &[u8], output: &mut [u8]) -> io::Result<()> {
    let given = film::film_read_block(rows, output);
    show(
        out,
        b"read_block",
        &[u16::from(given.answer), u16::from(given.distance)],
        output,
    )
}

pub fn encode_smudge(out: &mut impl Write, data: &[u8], output: &mut [u8]) -> io::Result<()> {
    let answer = film::film_encode_smudge(data, output);
    show(out, b"encode_smudge", &[u16::from(answer)], output)
}

pub fn read_smudge(out: &mut impl Write, rows: &[u8], output: &mut [u8]) -> io::Result<()> {
    let given = film::film_read_smudge(rows, output);
    show(
        out,
        b"read_smudge",
        &[u16::from(given.answer), u16::from(given.distance)],
        output,
    )
}
