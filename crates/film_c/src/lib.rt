// The library that C links, over the crate film: each function is the one there of its name, with the same clauses. tools/build-library makes libfilm.a of it.
#![tactic(auto)]

ghost use Rattle.std.specs.Prelude.{◌≡◌, [], ◌∷◌, None, Some};
ghost use Rattle.field.specs.Promises as Field;
ghost use Rattle.encoder.specs.Promises as Encoder;
ghost use Rattle.line.specs.Promises as Line;
ghost use Rattle.blots.specs.Promises as Blots;
ghost use Rattle.ring.specs.Promises as Ring;
ghost use Rattle.block.specs.Promises as Block;
ghost use Rattle.smudge.specs.Promises as Smudge;
ghost use Rattle.scans.specs.Promises as Scans;
ghost use Rattle.spool.specs.Promises as Spool;
ghost use Rattle.panel.specs.Promises as Panel;
ghost use Rattle.film.specs.Version.{version};
ghost use Rattle.film.specs.Numbers.{element_numbers, choice_numbers, list_numbers, ring_numbers, panel_numbers, block_numbers};

use film::{FilmBlock, FilmChoice, FilmElement, FilmList, FilmPanel, FilmRing, FilmSpool};
use line::PlainReading;

pub mod brightness;
pub mod recorder;
pub mod sheets;
pub mod trays;

// The version of the library that is linked.
#[unsafe(no_mangle)]
pub extern "C" fn film_version() -> u32
    ensures { result ≡ version }
{
    film::film_version()
}

// The sum of two operands.
#[unsafe(no_mangle)]
pub extern "C" fn film_sum(u: u8, v: u8) -> FilmElement
    ensures { Field.Sums u v (element_numbers result) }
{
    film::film_sum(u, v)
}

// The product of two operands.
#[unsafe(no_mangle)]
pub extern "C" fn film_product(u: u8, v: u8) -> FilmElement
    ensures { Field.Multiplies u v (element_numbers result) }
{
    film::film_product(u, v)
}

// The quotient of two operands.
#[unsafe(no_mangle)]
pub extern "C" fn film_quotient(u: u8, v: u8) -> FilmElement
    ensures { Field.Divides u v (element_numbers result) }
{
    film::film_quotient(u, v)
}

// Encodes a line at once.
#[unsafe(no_mangle)]
pub extern "C" fn film_encode_line(text: &[u8], number: u16, out: &mut [u8]) -> u8
    ensures { Encoder.Encodes text.now number out.old (result ∷ []) out.new }
{
    film::film_encode_line(text, number, out)
}

// Reads a line with no wanted number.
#[unsafe(no_mangle)]
pub extern "C" fn film_read_line(word: &[u8], radius: u8, out: &mut [u8]) -> PlainReading
    ensures { Line.Reads word.now radius None out.old (Line.plain_numbers result) out.new }
{
    film::film_read_line(word, radius, out)
}

// Reads a line that must carry the wanted number.
#[unsafe(no_mangle)]
pub extern "C" fn film_read_line_wanted(
    word: &[u8],
    radius: u8,
    wanted: u16,
    out: &mut [u8],
) -> PlainReading
    ensures { Line.Reads word.now radius (Some wanted) out.old (Line.plain_numbers result) out.new }
{
    film::film_read_line_wanted(word, radius, wanted, out)
}

// Reads a line as 001 did, with no wanted number.
#[unsafe(no_mangle)]
pub extern "C" fn film_read_line_paper(word: &[u8], radius: u8, out: &mut [u8]) -> PlainReading
    ensures { Line.Reads word.now radius None out.old (Line.plain_numbers result) out.new }
{
    film::film_read_line_paper(word, radius, out)
}

// Reads a line that must carry the wanted number, as 001 did.
#[unsafe(no_mangle)]
pub extern "C" fn film_read_line_paper_wanted(
    word: &[u8],
    radius: u8,
    wanted: u16,
    out: &mut [u8],
) -> PlainReading
    ensures { Line.Reads word.now radius (Some wanted) out.old (Line.plain_numbers result) out.new }
{
    film::film_read_line_paper_wanted(word, radius, wanted, out)
}

// Reads a line with blots.
#[unsafe(no_mangle)]
pub extern "C" fn film_read_blotted(word: &[u8], map: &[u8], out: &mut [u8]) -> PlainReading
    ensures { Blots.ReadsBlotted word.now map.now out.old (Line.plain_numbers result) out.new }
{
    film::film_read_blotted(word, map, out)
}

// Reads a spool: up to 255 lines, each by itself.
#[unsafe(no_mangle)]
pub extern "C" fn film_read_spool(lines: &[u8], radius: u8, out: &mut [u8]) -> FilmSpool
    ensures { Spool.Spools lines.now radius out.old (result.answer ∷ []) (Spool.left_of result.places out.new) }
{
    film::film_read_spool(lines, radius, out)
}

// Chooses the better of two scans.
#[unsafe(no_mangle)]
pub extern "C" fn film_better_scan(first: &[u8], second: &[u8], radius: u8) -> FilmChoice
    ensures { Scans.Chooses first.now second.now radius (choice_numbers result) }
{
    film::film_better_scan(first, second, radius)
}

// Lists a ring.
#[unsafe(no_mangle)]
pub extern "C" fn film_list_ring(ring: &[u8], radius: u8, out: &mut [u8]) -> FilmList
    ensures { Ring.ListsRing ring.now radius out.old (list_numbers result) out.new }
{
    film::film_list_ring(ring, radius, out)
}

// Reads a ring.
#[unsafe(no_mangle)]
pub extern "C" fn film_read_ring(ring: &[u8], radius: u8, out: &mut [u8]) -> FilmRing
    ensures { Ring.ReadsRing ring.now radius out.old (ring_numbers result) out.new }
{
    film::film_read_ring(ring, radius, out)
}

// Writes a text for a panel.
#[unsafe(no_mangle)]
pub extern "C" fn film_panel_text(text: &[u8], out: &mut [u8]) -> FilmPanel
    ensures { Panel.Panels text.now out.old (panel_numbers result) out.new }
{
    film::film_panel_text(text, out)
}

// Writes the text of a ring for a panel.
#[unsafe(no_mangle)]
pub extern "C" fn film_panel_ring(ring: &[u8], radius: u8, out: &mut [u8]) -> FilmPanel
    ensures { Panel.PanelsRing ring.now radius out.old (panel_numbers result) out.new }
{
    film::film_panel_ring(ring, radius, out)
}

// Encodes a block.
#[unsafe(no_mangle)]
pub extern "C" fn film_encode_block(given: &[u8], out: &mut [u8]) -> u8
    ensures { Block.Encodes given.now out.old (result ∷ []) out.new }
{
    film::film_encode_block(given, out)
}

// Reads a block.
#[unsafe(no_mangle)]
pub extern "C" fn film_read_block(rows: &[u8], out: &mut [u8]) -> FilmBlock
    ensures { Block.Reads rows.now out.old (block_numbers result) out.new }
{
    film::film_read_block(rows, out)
}

// Encodes a block that outlasts a smudge.
#[unsafe(no_mangle)]
pub extern "C" fn film_encode_smudge(given: &[u8], out: &mut [u8]) -> u8
    ensures { Smudge.Encodes given.now out.old (result ∷ []) out.new }
{
    film::film_encode_smudge(given, out)
}

// Reads a block that may be smudged.
#[unsafe(no_mangle)]
pub extern "C" fn film_read_smudge(rows: &[u8], out: &mut [u8]) -> FilmBlock
    ensures { Smudge.Reads rows.now out.old (block_numbers result) out.new }
{
    film::film_read_smudge(rows, out)
}
