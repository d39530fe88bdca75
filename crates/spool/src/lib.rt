// Reading a spool: up to 255 lines in one call, each as if it were read by itself.
#![tactic(auto)]

ghost use Rattle.std.specs.Prelude.{◌≡◌, ◌*◌, ◌≤◌, length, None};
ghost use Rattle.line.specs.Promises.{plain_numbers, Reads};
ghost use Rattle.spool.specs.Promises.{spool_numbers, places_of, left_of, Each, Spools};

use line::PlainReading;
use refusal::Refusal;

// The characters of a line.
const LINE: usize = 63;

// The places of an answer: one for each line of the longest spool.
pub const PLACES: usize = 255;

// The characters of that spool.
const SPOOL: usize = 16065;

// A place that tells nothing.
const NO_READING: PlainReading = PlainReading {
    answer: 0,
    distance: 0,
    number: 0,
    first: 0,
    last: 0,
};

// Reads a spool: each line with the radius and no wanted number, into its own 63 bytes of the output. A line that is refused leaves them and stops no other.
// What reading each line answers stands in its place, and zeros past the last line.
pub fn read_spool(
    lines: &[u8],
    radius: u8,
    output: &mut [u8],
) -> Result<[PlainReading; PLACES], Refusal>
    ensures { Spools lines.now radius output.old (spool_numbers result) (left_of (places_of result) output.new) }
{
    if lines.len() % LINE != 0 {
        return Err(Refusal::InputLength);
    }
    if lines.len() > SPOOL {
        return Err(Refusal::InputLength);
    }
    if output.len() != lines.len() {
        return Err(Refusal::OutputLength);
    }
    Ok(read_each(lines, radius, output, lines.len() / LINE))
}

// Reads n lines, each into its own 63 bytes.
fn read_each(lines: &[u8], radius: u8, output: &mut [u8], n: usize) -> [PlainReading; PLACES]
    requires n_bound { n ≤ 255 }
    requires lines_len { length lines.now ≡ n * 63 }
    requires output_len { length output.old ≡ n * 63 }
    ensures { Each lines.now radius output.old n (left_of result output.new) }
{
    let mut places = [NO_READING; PLACES];
    // a range, and no zip of chunks: each turn writes its own 63 bytes of the output, and the promise names them by the index
    for i in 0..n {
        let start = i * LINE;
        let end = start + LINE;
        places[i] = read_one(&lines[start..end], radius, &mut output[start..end]);
    }
    places
}

// Reads one line.
fn read_one(line: &[u8], radius: u8, output: &mut [u8]) -> PlainReading
    ensures { Reads line.now radius None output.old (plain_numbers result) output.new }
{
    line::plain(line::read_line(line, radius, None, output))
}
