// Parity blocks: reading within one bit, and encoding.
#![tactic(auto)]

ghost use Rattle.std.specs.Prelude.{◌≡◌, ◌+◌, ◌*◌, ◌/◌, ◌≤◌, length};
ghost use Rattle.eights.specs.Inside.{HoldsBytes, eight_from};
ghost use Rattle.block.specs.Block.{ones, Sevens};
ghost use Rattle.block.specs.Promises.{reading_numbers, encoding_numbers, Reads, Encodes};
ghost use Rattle.refusal.specs.Promise.{Tells};
ghost use Rattle.block.specs.Inside.{Counted, checked, encoded};
ghost use Rattle.block.specs.Lanes.{CountedTo, OddBytes, SomeByte};

use refusal::Refusal;

// The exclusive or of the rows of a proper block: bit j is the parity of column j, and every column is odd.
const COLUMNS: u8 = 255;

// How many rows are odd, one of them, and a bit for each column of the wrong parity.
#[derive(Clone, Copy)]
struct Faults {
    rows: usize,
    row: usize,
    columns: u8,
}

// How many ones a row holds.
fn ones_of(x: u8) -> u8
    ensures { result ≡ ones x }
{
    x.count_ones() as u8
}

// One pass over the rows: what is wrong with them.
fn faults_of(rows: &[u8]) -> Faults
    ensures { Counted rows.now result }
{
    let first = faults_of_eights(rows);
    let mut odd = first.rows;
    let mut row = first.row;
    let mut columns = first.columns;
    for i in rows.len() / 8 * 8..rows.len() {
        let x = rows[i];
        if ones_of(x) % 2 == 1 {
            odd += 1;
            row = i;
        }
        columns ^= x;
    }
    Faults {
        rows: odd,
        row,
        columns,
    }
}

// What is wrong with the first rows, eight at once; fewer than eight are left. As 256 is 1 modulo 255, a remainder counts the odd rows of eight.
fn faults_of_eights(rows: &[u8]) -> Faults
    ensures { CountedTo rows.now (length rows.now / 8 * 8) result.rows result.row result.columns }
{
    let mut odd: usize = 0;
    let mut row: usize = 0;
    let mut z: u64 = 0;
    let (eights, _) = rows.as_chunks::<8>();
    for (k, eight) in eights.iter().enumerate() {
        let x = u64::from_le_bytes(*eight);
        let p = odd_bytes(x);
        if p != 0 {
            odd += (p % 255) as usize; // a u64 has no From into a usize
            row = 8 * k + some_byte(p);
        }
        z ^= x;
    }
    Faults {
        rows: odd,
        row,
        columns: COLUMNS ^ eights::folded(z),
    }
}

// For each of eight bytes, whether it is odd: its halves added, and the halves of that, until one bit is left.
pub fn odd_bytes(x: u64) -> u64
    ensures { OddBytes x result }
{
    let y = x ^ (x >> 4);
    let z = y ^ (y >> 2);
    let w = z ^ (z >> 1);
    w & 0x0101_0101_0101_0101
}

// The lowest byte that is not 0.
fn some_byte(p: u64) -> usize
    ensures { SomeByte p result }
{
    (p.trailing_zeros() / 8) as usize // a u32 has no From into a usize
}

// Reads a block: writes the proper block within one bit of the rows. Odd rows and wrong columns are
// as many, but for an even number; so one of each at most means a proper block or a single bit, and
// anything more is farther.
pub fn read_block(rows: &[u8], output: &mut [u8]) -> Result<u8, Refusal>
    ensures { Reads rows.now output.old (reading_numbers result) output.new }
{
    let n = rows.len();
    if n < 2 || n > 64 {
        return Err(Refusal::RowCount);
    }
    if output.len() != n {
        return Err(Refusal::OutputLength);
    }
    let faults = faults_of(rows);
    if faults.rows > 1 {
        return Err(Refusal::NoBlock);
    }
    let distance = ones_of(faults.columns);
    if distance > 1 {
        return Err(Refusal::NoBlock);
    }
    output.copy_from_slice(rows);
    output[faults.row] ^= faults.columns;
    Ok(distance)
}

// Whether each data row has seven bits.
fn all_sevens(given: &[u8]) -> bool
    ensures { Tells (Sevens given.now) result }
{
    given.iter().all(|x| *x <= 127)
}

// A row made even by its highest bit.
fn checked_row(x: u8) -> u8
    ensures { result ≡ checked x }
{
    x ^ ones_of(x) % 2 * 128
}

// Writes the rows with their checks, and then the column checks.
fn put_block(given: &[u8], output: &mut [u8])
    requires { length output.old ≡ length given.now + 1 }
    ensures { output.new ≡ encoded given.now }
{
    let mut columns = COLUMNS;
    for (i, x) in given.iter().enumerate() {
        let row = checked_row(*x);
        output[i] = row;
        columns ^= row;
    }
    output[given.len()] = columns;
}

// Encodes data rows: writes the one proper block with them.
pub fn encode_block(given: &[u8], output: &mut [u8]) -> Result<(), Refusal>
    ensures { Encodes given.now output.old (encoding_numbers result) output.new }
{
    let n = given.len();
    if n < 1 || n > 63 {
        return Err(Refusal::RowCount);
    }
    if output.len() != n + 1 {
        return Err(Refusal::OutputLength);
    }
    if !all_sevens(given) {
        return Err(Refusal::ValueOver);
    }
    put_block(given, output);
    Ok(())
}
