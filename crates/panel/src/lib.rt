// Harmless text for a panel: the text of a line, with the five bytes that a panel takes for its own written by name.
#![tactic(auto)]

ghost use Rattle.std.specs.Prelude.{◌≡◌, ◌+◌, ◌<◌, ◌≤◌, length};
ghost use Rattle.code.specs.Word.{Characters};
ghost use Rattle.text.specs.Writing.{Puts};
ghost use Rattle.panel.specs.Escaping.{written};
ghost use Rattle.panel.specs.Promises.{panel_numbers, shown, Panels, PanelsRing};
ghost use Rattle.panel.specs.Inside.{reading_number, OfKind, Tests};

use refusal::Refusal;

// The kinds of text that are known. Numbers and no enum: a text's first character is its kind, and all others are unknown.
const PLAIN: u8 = 0;

const TEMPLATE: u8 = 1;

// The least room: 49 characters, each with a name of six bytes.
const ROOM: usize = 294;

// The byte that character 0 stands for.
const FIRST: u8 = 32;

// Writes the text of 50 characters, the first of which is its kind, and answers how many bytes were written. Only plain text goes on to escaping.
pub fn panel_text(text: &[u8], output: &mut [u8]) -> Result<u16, Refusal>
    ensures { Panels text.now output.old (panel_numbers result) output.new }
{
    let reading = read_text(text, output.len());
    // 01's forms: what was read is taken apart here, and no `?` does it
    let Ok(()) = reading else {
        return reading.map(|()| 0);
    };
    let length = put_shown(text, output);
    Ok(length as u16) // at most 294: a usize has no From into a u16
}

// Reads a ring, and writes the text of the line that is read.
pub fn panel_ring(ring: &[u8], radius: u8, output: &mut [u8]) -> Result<u16, Refusal>
    ensures { PanelsRing ring.now radius output.old (panel_numbers result) output.new }
{
    if ring.len() != 63 {
        return Err(Refusal::InputLength);
    }
    if output.len() < ROOM {
        return Err(Refusal::OutputLength);
    }
    let mut line = [0u8; 63];
    ring::read_ring(ring, radius, &mut line)?;
    panel_text(&line[..50], output)
}

// The tests of a text for an output of some room, in order; the kind comes last.
fn read_text(text: &[u8], room: usize) -> Result<(), Refusal>
    ensures { Tests text.now room (reading_number result) }
{
    if text.len() != 50 {
        return Err(Refusal::InputLength);
    }
    if room < ROOM {
        return Err(Refusal::OutputLength);
    }
    if !eights::all_low(text) {
        return Err(Refusal::ValueOver);
    }
    of_kind(text[0])
}

// The tests of a text's kind.
fn of_kind(kind: u8) -> Result<(), Refusal>
    ensures { OfKind kind (reading_number result) }
{
    match kind {
        PLAIN => Ok(()),
        TEMPLATE => Err(Refusal::Template),
        _ => Err(Refusal::UnknownKind),
    }
}

// Writes the characters after the kind from the beginning of the output on, and answers the place after them.
fn put_shown(text: &[u8], output: &mut [u8]) -> usize
    requires { (1 ≤ length text.now) × Characters text.now }
    ensures { Puts output.old output.new 0 result (shown text.now) }
{
    let mut next: usize = 0;
    for v in &text[1..] {
        next = put_character(output, next, *v);
    }
    next
}

// Writes a character: its byte, or the name of its byte.
fn put_character(output: &mut [u8], at: usize, v: u8) -> usize
    requires { v < 64 }
    ensures { Puts output.old output.new at result (written (32 + v)) }
{
    let byte = FIRST + v;
    match byte {
        b'&' => text::put_word(output, at, b"&amp;"),
        b'<' => text::put_word(output, at, b"&lt;"),
        b'>' => text::put_word(output, at, b"&gt;"),
        b'"' => text::put_word(output, at, b"&quot;"),
        b'\'' => text::put_word(output, at, b"&#39;"),
        _ => text::put_byte(output, at, byte),
    }
}
