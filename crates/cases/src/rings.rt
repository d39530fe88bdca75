// The calls of rings and of panel text: a ring that is listed or read, and the text of a line or of a ring as a panel shows it.
use super::show::show;
use std::io;
use std::io::Write;

pub fn list_ring(
    out: &mut impl Write,
    ring: &[u8],
    radius: u8,
    output: &mut [u8],
) -> io::Result<()> {
    let given = film::film_list_ring(ring, radius, output);
    show(
        out,
        b"list_ring",
        &[u16::from(given.answer), u16::from(given.count)],
        output,
    )
}

pub fn read_ring(
    out: &mut impl Write,
    ring: &[u8],
    radius: u8,
    output: &mut [u8],
) -> io::Result<()> {
    let given = film::film_read_ring(ring, radius, output);
    show(
        out,
        b"read_ring",
        &[
            u16::from(given.answer),
            u16::from(given.start),
            given.number,
            u16::from(given.distance),
            u16::from(given.first),
            u16::from(given.last),
        ],
        output,
    )
}

pub fn panel_text(out: &mut impl Write, text: &[u8], output: &mut [u8]) -> io::Result<()> {
    let given = film::film_panel_text(text, output);
    show(
        out,
        b"panel_text",
        &[u16::from(given.answer), given.length],
        output,
    )
}

pub fn panel_ring(
    out: &mut impl Write,
    ring: &[u8],
    radius: u8,
    output: &mut [u8],
) -> io::Result<()> {
    let given = film::film_panel_ring(ring, radius, output);
    show(
        out,
        b"panel_ring",
        &[u16::from(given.answer), given.length],
        output,
    )
}
