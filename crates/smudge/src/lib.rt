// Blocks that outlast a smudge: reading a stored block of which one window may be smudged, and encoding one. Inside, the eight rows are one number, the cell in
// row i and column j at bit 8 i + j.
#![tactic(auto)]

ghost use Rattle.std.specs.Prelude.{◌≡◌, length};
ghost use Rattle.std.specs.Int.Count.{ones};
ghost use Rattle.eights.specs.Inside.{HoldsBytes, eight_from};
ghost use Rattle.block.specs.Promises.{reading_numbers, encoding_numbers};
ghost use Rattle.refusal.specs.Promise.{Tells};
ghost use Rattle.smudge.specs.Smudge.{side, staggered};
ghost use Rattle.smudge.specs.Promises.{Reads, Encodes};
ghost use Rattle.smudge.specs.Inside.{straight, stagger, odd_rows, wrong_columns, Sound, holding, first_with, smudge_in, rows_in};

use refusal::Refusal;

// The rows of a stored block.
const SIDE: usize = 8;

// And the data rows that it is made of.
const DATA_ROWS: usize = 7;

// The exclusive or of the rows of a proper block: every column is odd.
const COLUMNS: u8 = 255;

// The cells of even columns.
const EVEN_COLUMNS: u64 = 0x5555_5555_5555_5555;

// And of odd columns.
const ODD_COLUMNS: u64 = 0xaaaa_aaaa_aaaa_aaaa;

// The cells of even rows.
const EVEN_ROWS: u64 = 0x00ff_00ff_00ff_00ff;

// Of odd rows the cells of columns 0 to 5.
const SIX_OF_ODD_ROWS: u64 = 0x3f00_3f00_3f00_3f00;

// And those of columns 0 and 1.
const TWO_OF_ODD_ROWS: u64 = 0x0300_0300_0300_0300;

// The first cell of each row.
const LOWEST: u64 = 0x0101_0101_0101_0101;

// Every cell of a row whose first is given, as a factor.
const WHOLE_ROW: u64 = 0xff;

// The window at row 0, column 0.
const WINDOW: u64 = 0x0303;

// The first cells of the 49 windows: none goes around the edge.
const FIRST_CELLS: u64 = 0x007f_7f7f_7f7f_7f7f;

// The cells of two rows.
const TWO_ROWS: u64 = 16;

// And of six.
const SIX_ROWS: u64 = 48;

// A stored block straightened: odd columns two rows upward, then odd rows two cells toward bit 0.
fn straightened(x: u64) -> u64
    ensures { result ≡ straight x }
{
    let turned = (x >> TWO_ROWS) ^ (x << SIX_ROWS);
    let y = (x & EVEN_COLUMNS) ^ (turned & ODD_COLUMNS);
    (y & EVEN_ROWS) ^ ((y >> 2) & SIX_OF_ODD_ROWS) ^ ((y & TWO_OF_ODD_ROWS) << 6)
}

// And staggered again: odd rows two cells away from bit 0, then odd columns two rows downward.
fn staggered(x: u64) -> u64
    ensures { result ≡ stagger x }
{
    let y = (x & EVEN_ROWS) ^ ((x & SIX_OF_ODD_ROWS) << 2) ^ ((x >> 6) & TWO_OF_ODD_ROWS);
    let turned = (y << TWO_ROWS) ^ (y >> SIX_ROWS);
    (y & EVEN_COLUMNS) ^ (turned & ODD_COLUMNS)
}

// The odd rows of a stored block straightened: 1 in the byte of each.
fn odd_rows(x: u64) -> u64
    ensures { result ≡ odd_rows x }
{
    block::odd_bytes(straightened(x))
}

// And its columns of the wrong parity, a bit for each.
fn wrong_columns(x: u64) -> u8
    ensures { result ≡ wrong_columns x }
{
    COLUMNS ^ eights::folded(straightened(x))
}

// Whether nothing is wrong with it.
fn is_sound(x: u64) -> bool
    ensures { Tells (Sound x) result }
{
    odd_rows(x) == 0 && wrong_columns(x) == 0
}

// Where four numbers together hold so many ones. Where they hold more it may tell so too, but no window holds more crossings than there are wrong columns.
fn holding(count: u8, a: u64, b: u64, c: u64, d: u64) -> u64
    ensures { result ≡ holding count a b c d }
{
    match count {
        0 => 0,
        1 => (a | b) | (c | d),
        2 => ((a & b) | (c & d)) | ((a ^ b) & (c ^ d)),
        3 => ((a & b) & (c ^ d)) | ((a ^ b) & (c & d)),
        _ => (a & b) & (c & d),
    }
}

// Of the cells where odd rows and wrong columns cross, those in the first window that holds so many of them; none where no window does.
fn first_with(count: u8, cells: u64) -> u64
    ensures { result ≡ first_with count cells }
{
    let firsts = holding(count, cells, cells >> 1, cells >> 8, cells >> 9) & FIRST_CELLS;
    if firsts == 0 {
        return 0;
    }
    cells & (WINDOW << firsts.trailing_zeros())
}

// The smudge of a block, if it has one. A window's cells come to four rows and to four columns, so that a smudge is all the crossings in its window, and these
// are as many as the wrong columns.
fn smudge_in(x: u64) -> u64
    ensures { result ≡ smudge_in x }
{
    let columns = wrong_columns(x);
    let crossings = staggered((odd_rows(x) * WHOLE_ROW) & (u64::from(columns) * LOWEST));
    first_with(columns.count_ones() as u8, crossings)
}

// How many cells a number has.
fn cells_in(p: u64) -> u8
    ensures { result ≡ ones p }
{
    p.count_ones() as u8
}

// Reads a stored block: writes the one that differs from the rows inside one window alone. What the parities ask for is taken off, and then nothing may be left
// wrong.
pub fn read_smudge(rows: &[u8], output: &mut [u8]) -> Result<u8, Refusal>
    ensures { Reads rows.now output.old (reading_numbers result) output.new }
{
    let Ok(eight) = <[u8; SIDE]>::try_from(rows) else {
        return Err(Refusal::RowCount);
    };
    if output.len() != SIDE {
        return Err(Refusal::OutputLength);
    }
    let x = u64::from_le_bytes(eight);
    if is_sound(x) {
        output.copy_from_slice(&x.to_le_bytes());
        return Ok(0);
    }
    let smudge = smudge_in(x);
    let clean = x ^ smudge;
    if !is_sound(clean) {
        return Err(Refusal::NoBlock);
    }
    output.copy_from_slice(&clean.to_le_bytes());
    Ok(cells_in(smudge))
}

// Encodes seven data rows: writes the proper block with them, staggered.
pub fn encode_smudge(given: &[u8], output: &mut [u8]) -> Result<(), Refusal>
    ensures { Encodes given.now output.old (encoding_numbers result) output.new }
{
    if given.len() != DATA_ROWS {
        return Err(Refusal::RowCount);
    }
    block::encode_block(given, output)?;
    let mut plain = [0; SIDE];
    plain.copy_from_slice(output);
    let stored = staggered(u64::from_le_bytes(plain));
    output.copy_from_slice(&stored.to_le_bytes());
    Ok(())
}
