// Encoding a sheet: 52 lines from their texts and numbers, and eleven more that the columns force.
#![tactic(auto)]

ghost use Rattle.refusal.specs.Promise.{Tells};
ghost use Rattle.numbers.specs.Below.{AllBelow};
ghost use Rattle.code.specs.Word.{Characters};
ghost use Rattle.sheet_encoder.specs.Promises.{encoding_numbers, EncodesSheet};
ghost use Rattle.sheet_encoder.specs.Inside.{Encodable, FirstLines, Completes, AllComplete};

use refusal::Refusal;
use sheet::{SHEET, SIDE};

// The lines that have texts and numbers of their own.
const FREE: usize = 52;

// The characters of a text.
const TEXT: usize = 50;

// The characters of all texts.
const TEXTS: usize = 2600;

// Encodes a sheet: writes the one proper sheet whose first 52 lines have these texts and numbers.
pub fn encode_sheet(texts: &[u8], numbers: &[u16], output: &mut [u8]) -> Result<(), Refusal>
    ensures { EncodesSheet texts.now numbers.now output.old (encoding_numbers result) output.new }
{
    if texts.len() != TEXTS {
        return Err(Refusal::InputLength);
    }
    if numbers.len() != FREE {
        return Err(Refusal::InputLength);
    }
    if output.len() != SHEET {
        return Err(Refusal::OutputLength);
    }
    if !eights::all_low(texts) {
        return Err(Refusal::ValueOver);
    }
    if !possible(numbers) {
        return Err(Refusal::NumberOver);
    }
    let unmarked = sheet::marks_added(first_lines(texts, numbers));
    sheet::put(sheet::marks_added(completed(unmarked)), output);
    Ok(())
}

// Whether each number can be that of a line.
fn possible(numbers: &[u16]) -> bool
    ensures { Tells (AllBelow 4096 numbers.now) result }
{
    numbers.iter().all(|n| *n <= 4095)
}

// The first 52 lines, and zeros after them.
fn first_lines(texts: &[u8], numbers: &[u16]) -> [u8; SHEET]
    requires { Encodable texts.now numbers.now }
    ensures { FirstLines texts.now numbers.now result }
{
    let mut s = [0u8; SHEET];
    let (chunks, _) = texts.as_chunks::<TEXT>();
    for (i, text) in chunks.iter().enumerate() {
        // the line by its index, as in sheet::marks_added: of a chunk that it lent a proof knows the length alone
        let start = i * SIDE;
        let end = start + SIDE;
        let known = encoder::information_of(text, numbers[i]);
        encoder::put_line(known, &mut s[start..end]);
    }
    s
}

// A sheet without its marks, each column completed.
fn completed(mut s: [u8; SHEET]) -> [u8; SHEET]
    requires { Characters s }
    ensures { AllComplete s result }
{
    for a in 0..SIDE as u8 {
        let word = clean_word(sheet::column_of(&s, a));
        sheet::put_column(word, a, &mut s);
    }
    s
}

// The clean word with the first 52 characters of a column: the line with them, its marks taken off.
fn clean_word(column: [u8; SIDE]) -> [u8; SIDE]
    requires { Characters column }
    ensures { Completes column result }
{
    let mut known = [0u8; SIDE];
    known[..FREE].copy_from_slice(&column[..FREE]);
    let mut word = [0u8; SIDE];
    encoder::put_line(known, &mut word);
    sheet::add_marks(&mut word);
    word
}
