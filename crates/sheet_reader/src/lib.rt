// Reading a sheet: rounds of lines and columns, until one ends as it began or eight are done.
#![tactic(auto)]

ghost use Rattle.std.specs.Prelude.{◌≡◌, ◌<◌, ◌≤◌, length, Ok};
ghost use Rattle.refusal.specs.Promise.{Tells};
ghost use Rattle.code.specs.Word.{Characters, Clean};
ghost use Rattle.mender.specs.Mender.{Word};
ghost use Rattle.sheet.specs.Sheet.{Proper};
ghost use Rattle.sheet.specs.Inside.{bare};
ghost use Rattle.sheet_reader.specs.Promises.{reading_numbers, ReadsSheet};
ghost use Rattle.sheet_reader.specs.Inside.{word_of, WordPut, WordsRead, WordsClean, Settles};

mod unmarked;

use refusal::Refusal;
use sheet::{SHEET, SIDE};
use unmarked::Unmarked;

// The most rounds that are run.
const ROUNDS: u8 = 8;

// How far a line or a column may be from what is read for it.
const RADIUS: usize = 5;

// The lines that fix the others.
const FREE: u8 = 52;

// How many rounds were run, and whether what they left, which is written, is proper.
#[derive(Clone, Copy)]
pub enum SheetReading {
    Proper { rounds: u8 },
    Improper { rounds: u8 },
}

// What rounds leave, and what is told of it.
#[derive(Clone, Copy)]
struct Settled {
    sheet: Unmarked,
    reading: SheetReading,
}

// The two ways of cutting a sheet into words.
#[derive(Clone, Copy)]
enum Way {
    Lines,
    Columns,
}

impl Way {
    // Word i as it stands.
    fn word(self, i: u8, s: &[u8; SHEET]) -> [u8; SIDE]
        requires { i < 63 }
        ensures { result ≡ word_of self i s.now }
    {
        match self {
            Way::Lines => {
                // `as` here and below: with usize::from the proof of `put` did not close
                let start = i as usize * SIDE;
                let mut line = [0u8; SIDE];
                line.copy_from_slice(&s[start..start + SIDE]);
                line
            }
            Way::Columns => sheet::column_of(s, i),
        }
    }

    // Writes a word over word i.
    fn put(self, word: [u8; SIDE], i: u8, s: &mut [u8; SHEET])
        requires { i < 63 }
        ensures { WordPut self word i s.old s.new }
    {
        match self {
            Way::Lines => {
                let start = i as usize * SIDE;
                s[start..start + SIDE].copy_from_slice(&word);
            }
            Way::Columns => sheet::put_column(word, i, s),
        }
    }
}

// Reads a sheet: writes what the rounds leave. Where none was run nothing is written.
pub fn read_sheet(sheet: &[u8], output: &mut [u8]) -> Result<SheetReading, Refusal>
    ensures { ReadsSheet sheet.now output.old (reading_numbers result) output.new }
{
    if sheet.len() != SHEET {
        return Err(Refusal::InputLength);
    }
    if output.len() != SHEET {
        return Err(Refusal::OutputLength);
    }
    if !eights::all_low(sheet) {
        return Err(Refusal::ValueOver);
    }
    Ok(read_characters(sheet, output))
}

// Reads a sheet of 3,969 characters. It is a function of its own in the machine code too: a call that is refused takes no room for the sheets.
#[inline(never)]
fn read_characters(sheet: &[u8], output: &mut [u8]) -> SheetReading
    requires sheet_len { length sheet.now ≡ 3969 }
    requires output_len { length output.old ≡ 3969 }
    requires characters { Characters sheet.now }
    ensures { ReadsSheet sheet.now output.old (reading_numbers (Ok result)) output.new }
{
    let left = run_rounds(Unmarked {
        cells: sheet::marks_added(sheet::taken(sheet)),
    });
    sheet::put(sheet::marks_added(left.sheet.cells), output);
    left.reading
}

// Runs rounds, each line and then each column, until one ends as it began or eight are done. A proper sheet is left as it is by a round, which need not
// be run to be counted.
fn run_rounds(mut s: Unmarked) -> Settled
    ensures { Settles s.cells result }
{
    for rounds in 0..ROUNDS {
        if is_proper(&s) {
            return Settled {
                sheet: s,
                reading: SheetReading::Proper { rounds: rounds + 1 },
            };
        }
        let mut between = s;
        read_words(Way::Lines, &mut between);
        let mut next = between;
        read_words(Way::Columns, &mut next);
        // The end of a round is held against its beginning: its columns may undo what its lines did.
        if next == s {
            return Settled {
                sheet: s,
                reading: SheetReading::Improper { rounds: rounds + 1 },
            };
        }
        s = next;
    }
    if is_proper(&s) {
        return Settled {
            sheet: s,
            reading: SheetReading::Proper { rounds: ROUNDS },
        };
    }
    Settled {
        sheet: s,
        reading: SheetReading::Improper { rounds: ROUNDS },
    }
}

// Each line, or each column, becomes the clean word within five of it; where there is none it stays. It is written where the sheet lies, which spares copies.
fn read_words(way: Way, sheet: &mut Unmarked)
    ensures { WordsRead way sheet.old.cells sheet.new.cells }
{
    for i in 0..SIDE as u8 {
        let found = mender::clean_within(&way.word(i, &sheet.cells), RADIUS);
        if let Some(mended) = found {
            way.put(mended.word, i, &mut sheet.cells);
        }
    }
}

// Whether a sheet is proper, its marks put on: 52 lines and all columns tell, since these force the other lines.
fn is_proper(s: &Unmarked) -> bool
    ensures { Tells (Proper (bare s.now.cells)) result }
{
    if !words_clean(Way::Lines, FREE, s) {
        return false;
    }
    words_clean(Way::Columns, SIDE as u8, s)
}

// Whether the first n lines, or columns, are clean words.
fn words_clean(way: Way, n: u8, s: &Unmarked) -> bool
    requires { n ≤ 63 }
    ensures { Tells (WordsClean way n s.now.cells) result }
{
    for i in 0..n {
        if !is_clean(&way.word(i, &s.cells)) {
            return false;
        }
    }
    true
}

// Whether 63 characters are a clean word.
fn is_clean(word: &[u8; SIDE]) -> bool
    requires { Word word.now }
    ensures { Tells (Clean word.now) result }
{
    mender::all_zero(sums::eleven_sums(word))
}
