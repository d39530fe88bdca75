// The library that other programs link, by the crate film_c: each function hands its call to the entry point of that name and gives back the paper's numbers; one tells the version.
#![tactic(auto)]

ghost use Rattle.std.specs.Prelude.{◌≡◌, [], ◌∷◌, None, Some};
ghost use Rattle.field.specs.Promises as Field;
ghost use Rattle.encoder.specs.Promises as Encoder;
ghost use Rattle.line.specs.Promises as Line;
ghost use Rattle.blots.specs.Promises as Blots;
ghost use Rattle.ring.specs.Promises as Ring;
ghost use Rattle.block.specs.Promises as Block;
ghost use Rattle.smudge.specs.Promises as Smudge;
ghost use Rattle.scans.specs.Promises as Scans;
ghost use Rattle.spool.specs.Promises as Spool;
ghost use Rattle.panel.specs.Promises as Panel;
ghost use Rattle.film.specs.Version.{version};
ghost use Rattle.film.specs.Numbers.{answer_of, element_numbers, choice_numbers, list_numbers, ring_numbers, panel_numbers, block_numbers};

use line::PlainReading;
use refusal::Refusal;
use scans::Choice;
use spool::PLACES;

pub mod brightness;
pub mod recorder;
pub mod sheets;
pub mod trays;

// The library's version: a million times the major number, a thousand times the minor, and the patch. tools/tables writes it from version.txt.
const VERSION: u32 = 4008000;

// The version of the library that is linked.
pub fn film_version() -> u32
    ensures { result ≡ version }
{
    VERSION // as the header's FILM_VERSION writes it
}

// The structs hold numbers, and no Result or enum: film.h lays them out so for C.
// The answer of an operation of the field, and its value.
#[repr(C)]
#[derive(Clone, Copy)]
pub struct FilmElement {
    pub answer: u8,
    pub value: u8,
}

// What reading each line of a spool answers, line by line, with zeros past the last line and in a refusal; and the answer of the call.
#[repr(C)]
#[derive(Clone, Copy)]
pub struct FilmSpool {
    pub places: [PlainReading; PLACES],
    pub answer: u8,
}

// What stands at a place that has no line.
const NO_READING: PlainReading = PlainReading {
    answer: 0,
    distance: 0,
    number: 0,
    first: 0,
    last: 0,
};

// The answer of choosing between two scans, and the scan: 1 the first, 2 the second, 0 neither.
#[repr(C)]
#[derive(Clone, Copy)]
pub struct FilmChoice {
    pub answer: u8,
    pub scan: u8,
}

// The answer of listing a ring, and how many starts are listed.
#[repr(C)]
#[derive(Clone, Copy)]
pub struct FilmList {
    pub answer: u8,
    pub count: u8,
}

// The answer of reading a ring, the start, the distance, the number, and the first and the last changed address of the word at the start.
#[repr(C)]
#[derive(Clone, Copy)]
pub struct FilmRing {
    pub answer: u8,
    pub start: u8,
    pub distance: u8,
    pub number: u16,
    pub first: u8,
    pub last: u8,
}

// The answer of a panel's text, and how many bytes were written.
#[repr(C)]
#[derive(Clone, Copy)]
pub struct FilmPanel {
    pub answer: u8,
    pub length: u16,
}

// The answer of reading a block, and the distance.
#[repr(C)]
#[derive(Clone, Copy)]
pub struct FilmBlock {
    pub answer: u8,
    pub distance: u8,
}

// The answer of a call that gives nothing else.
fn answer(given: Result<(), Refusal>) -> u8
    ensures { result ≡ answer_of given }
{
    match given {
        Ok(()) => 0,
        Err(why) => refusal::number(why),
    }
}

// The answer of an operation of the field in the library's form.
fn element(given: Result<u8, Refusal>) -> FilmElement
    ensures { element_numbers result ≡ Field.element_numbers given }
{
    match given {
        Ok(value) => FilmElement { answer: 0, value },
        Err(why) => FilmElement {
            answer: refusal::number(why),
            value: 0,
        },
    }
}

// The sum of two operands.
pub fn film_sum(u: u8, v: u8) -> FilmElement
    ensures { Field.Sums u v (element_numbers result) }
{
    element(field::sum(u, v))
}

// The product of two operands.
pub fn film_product(u: u8, v: u8) -> FilmElement
    ensures { Field.Multiplies u v (element_numbers result) }
{
    element(field::product(u, v))
}

// The quotient of two operands.
pub fn film_quotient(u: u8, v: u8) -> FilmElement
    ensures { Field.Divides u v (element_numbers result) }
{
    element(field::quotient(u, v))
}

// Encodes a line at once.
pub fn film_encode_line(text: &[u8], number: u16, out: &mut [u8]) -> u8
    ensures { Encoder.Encodes text.now number out.old (result ∷ []) out.new }
{
    answer(encoder::encode_line(text, number, out))
}

// Reads a line with no wanted number.
pub fn film_read_line(word: &[u8], radius: u8, out: &mut [u8]) -> PlainReading
    ensures { Line.Reads word.now radius None out.old (Line.plain_numbers result) out.new }
{
    line::plain(line::read_line(word, radius, None, out))
}

// Reads a line that must carry the wanted number.
pub fn film_read_line_wanted(word: &[u8], radius: u8, wanted: u16, out: &mut [u8]) -> PlainReading
    ensures { Line.Reads word.now radius (Some wanted) out.old (Line.plain_numbers result) out.new }
{
    line::plain(line::read_line(word, radius, Some(wanted), out))
}

// Reads a line as 001 did, with no wanted number.
pub fn film_read_line_paper(word: &[u8], radius: u8, out: &mut [u8]) -> PlainReading
    ensures { Line.Reads word.now radius None out.old (Line.plain_numbers result) out.new }
{
    line::plain(paper::read_line(word, radius, None, out))
}

// Reads a line that must carry the wanted number, as 001 did.
pub fn film_read_line_paper_wanted(
    word: &[u8],
    radius: u8,
    wanted: u16,
    out: &mut [u8],
) -> PlainReading
    ensures { Line.Reads word.now radius (Some wanted) out.old (Line.plain_numbers result) out.new }
{
    line::plain(paper::read_line(word, radius, Some(wanted), out))
}

// Reads a line with blots.
pub fn film_read_blotted(word: &[u8], map: &[u8], out: &mut [u8]) -> PlainReading
    ensures { Blots.ReadsBlotted word.now map.now out.old (Line.plain_numbers result) out.new }
{
    line::plain(blots::read_blotted(word, map, out))
}

// Reads a spool: up to 255 lines, each by itself.
pub fn film_read_spool(lines: &[u8], radius: u8, out: &mut [u8]) -> FilmSpool
    ensures { Spool.Spools lines.now radius out.old (result.answer ∷ []) (Spool.left_of result.places out.new) }
{
    match spool::read_spool(lines, radius, out) {
        Ok(places) => FilmSpool { places, answer: 0 },
        Err(why) => FilmSpool {
            places: [NO_READING; PLACES],
            answer: refusal::number(why), // that of the call: each place has its own
        },
    }
}

// Chooses the better of two scans.
pub fn film_better_scan(first: &[u8], second: &[u8], radius: u8) -> FilmChoice
    ensures { Scans.Chooses first.now second.now radius (choice_numbers result) }
{
    match scans::choose_scan(first, second, radius) {
        Ok(Choice::First) => FilmChoice { answer: 0, scan: 1 },
        Ok(Choice::Second) => FilmChoice { answer: 0, scan: 2 },
        Err(why) => FilmChoice {
            answer: refusal::number(why),
            scan: 0,
        },
    }
}

// Lists a ring.
pub fn film_list_ring(ring: &[u8], radius: u8, out: &mut [u8]) -> FilmList
    ensures { Ring.ListsRing ring.now radius out.old (list_numbers result) out.new }
{
    match ring::list_ring(ring, radius, out) {
        Ok(count) => FilmList { answer: 0, count },
        Err(why) => FilmList {
            answer: refusal::number(why),
            count: 0,
        },
    }
}

// Reads a ring.
pub fn film_read_ring(ring: &[u8], radius: u8, out: &mut [u8]) -> FilmRing
    ensures { Ring.ReadsRing ring.now radius out.old (ring_numbers result) out.new }
{
    match ring::read_ring(ring, radius, out) {
        Ok(read) => FilmRing {
            answer: 0,
            start: read.start,
            distance: read.distance,
            number: read.number,
            first: read.first,
            last: read.last,
        },
        Err(why) => FilmRing {
            answer: refusal::number(why),
            start: 0,
            distance: 0,
            number: 0,
            first: 0,
            last: 0,
        },
    }
}

// The answer of a panel's text in the library's form.
fn panel_shown(given: Result<u16, Refusal>) -> FilmPanel
    ensures { panel_numbers result ≡ Panel.panel_numbers given }
{
    match given {
        Ok(length) => FilmPanel { answer: 0, length },
        Err(why) => FilmPanel {
            answer: refusal::number(why),
            length: 0,
        },
    }
}

// Writes a text for a panel.
pub fn film_panel_text(text: &[u8], out: &mut [u8]) -> FilmPanel
    ensures { Panel.Panels text.now out.old (panel_numbers result) out.new }
{
    panel_shown(panel::panel_text(text, out))
}

// Writes the text of a ring for a panel.
pub fn film_panel_ring(ring: &[u8], radius: u8, out: &mut [u8]) -> FilmPanel
    ensures { Panel.PanelsRing ring.now radius out.old (panel_numbers result) out.new }
{
    panel_shown(panel::panel_ring(ring, radius, out))
}

// The answer of reading a block, of either kind, in the library's form.
fn block_read(given: Result<u8, Refusal>) -> FilmBlock
    ensures { block_numbers result ≡ Block.reading_numbers given }
{
    match given {
        Ok(distance) => FilmBlock {
            answer: 0,
            distance: distance, // in bits
        },
        Err(why) => FilmBlock {
            answer: refusal::number(why),
            distance: 0,
        },
    }
}

// Encodes a block.
pub fn film_encode_block(given: &[u8], out: &mut [u8]) -> u8
    ensures { Block.Encodes given.now out.old (result ∷ []) out.new }
{
    answer(block::encode_block(given, out))
}

// Reads a block.
pub fn film_read_block(rows: &[u8], out: &mut [u8]) -> FilmBlock
    ensures { Block.Reads rows.now out.old (block_numbers result) out.new }
{
    block_read(block::read_block(rows, out))
}

// Encodes a block that outlasts a smudge.
pub fn film_encode_smudge(given: &[u8], out: &mut [u8]) -> u8
    ensures { Smudge.Encodes given.now out.old (result ∷ []) out.new }
{
    answer(smudge::encode_smudge(given, out))
}

// Reads a block that may be smudged.
pub fn film_read_smudge(rows: &[u8], out: &mut [u8]) -> FilmBlock
    ensures { Smudge.Reads rows.now out.old (block_numbers result) out.new }
{
    block_read(smudge::read_smudge(rows, out))
}
